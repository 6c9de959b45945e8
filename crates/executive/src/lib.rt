#![tactic(auto)]

pub mod act;
pub mod calls;
pub mod control;
pub mod grant;
pub mod held;
pub mod replay;
mod step;
pub mod view;
