#![tactic(auto)]

pub mod belt;
pub mod returned;
