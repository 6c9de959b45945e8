#![tactic(auto)]

ghost use Rattle.worked.specs.Edges.{Edges};

#[cfg(test)]
mod carts;
#[cfg(test)]
mod drones;
#[cfg(test)]
mod given;
#[cfg(test)]
mod missions;
#[cfg(test)]
mod regions;
#[cfg(test)]
mod rules;
pub mod sealing;
pub mod spending;
#[cfg(test)]
mod stacks;

// The worked edges of the rules hold of the definitions that the contracts cite.
pub fn edges_hold()
    ensures { Edges }
{}
