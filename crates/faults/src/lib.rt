#![tactic(auto)]

pub mod error;
pub mod fault;
pub mod layer;
pub mod reason;
