#![tactic(auto)]

mod bytes;
pub mod cell;
pub mod line;
