#![tactic(auto)]

pub mod ahead;
pub mod given;
mod reading;
