#![tactic(auto)]

mod fields;
pub mod reader;
pub mod record;
pub mod refusal;
pub mod writer;
