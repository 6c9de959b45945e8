#![tactic(auto)]

// Runs of tapes, compared byte for byte with logs worked out by hand from the rules.
#[cfg(test)]
mod common;
#[cfg(test)]
mod example;
#[cfg(test)]
mod refusals;
