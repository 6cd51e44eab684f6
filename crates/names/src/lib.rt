#![tactic(auto)]

pub mod name;
