#![tactic(auto)]

mod arcs;
pub mod at_ratio;
pub mod cycle;
mod weights;
