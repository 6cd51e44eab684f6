#![tactic(auto)]

pub mod any_kind;
pub mod kind;
