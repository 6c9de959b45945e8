#![tactic(auto)]

pub mod battery;
pub mod draft;
pub mod fence;
pub mod layer;
pub mod layered;
