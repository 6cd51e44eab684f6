#![tactic(auto)]

pub mod one;
pub mod rack;
pub mod side_by_side;
