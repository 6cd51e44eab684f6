#![tactic(auto)]

pub mod call_line;
pub mod call_word;
mod fields;
pub mod lines;
