#![tactic(auto)]

pub mod column;
pub mod table;
