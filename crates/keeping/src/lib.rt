#![tactic(auto)]

pub mod control;
pub mod planned;
pub mod scan;
pub mod ticks;
