#![tactic(auto)]

pub mod opening;
pub mod session;
pub mod working;
