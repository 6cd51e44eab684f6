#![tactic(auto)]

pub mod sheet;
