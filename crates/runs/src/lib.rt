#![tactic(auto)]

mod asking;
mod deed;
mod due;
pub mod refusal;
pub mod run;
pub mod witness;
