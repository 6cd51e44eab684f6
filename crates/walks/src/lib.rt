#![tactic(auto)]

pub mod arcs;
mod best;
pub mod found;
mod legal;
mod search;
