#![tactic(auto)]

mod board;
pub mod record;
mod records;
pub mod runner;
mod serve;
mod sweep;
mod task;
pub mod unfit;
