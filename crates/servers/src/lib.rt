#![tactic(auto)]

pub mod figures;
pub mod fixed;
pub mod float;
pub mod own;
pub mod server;
pub mod settings;
mod slice;
