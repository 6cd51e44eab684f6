#![tactic(auto)]

pub mod fields;
pub mod lines;
pub mod parts;
pub mod token;
