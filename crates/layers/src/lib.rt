#![tactic(auto)]

pub mod inner;
pub mod stack;
