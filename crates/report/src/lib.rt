#![tactic(auto)]

mod lines;
pub mod report;
mod tables;
