#![tactic(auto)]

pub mod making;
