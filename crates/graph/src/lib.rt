#![tactic(auto)]

mod edges;
pub mod figures;
pub mod graph;
mod legal;
pub mod order;
pub mod origin;
pub mod parts;
