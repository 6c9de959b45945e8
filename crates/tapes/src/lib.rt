#![tactic(auto)]

// Records compared with bytes worked out by hand from their layout, and texts with what they mean.
#[cfg(test)]
mod common;
#[cfg(test)]
mod digits;
#[cfg(test)]
mod kinds;
#[cfg(test)]
mod lines;
#[cfg(test)]
mod reading;
#[cfg(test)]
mod ticks;
#[cfg(test)]
mod writing;
