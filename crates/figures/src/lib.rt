#![tactic(auto)]

mod critical;
pub mod figures;
mod loads;
pub mod ring_tasks;
