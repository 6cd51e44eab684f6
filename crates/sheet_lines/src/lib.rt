#![tactic(auto)]

pub mod above;
pub mod edge;
pub mod entry;
pub mod line;
pub mod lines;
mod values;
