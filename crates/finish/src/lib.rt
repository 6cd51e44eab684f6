#![tactic(auto)]

mod checks;
pub mod ledger;
mod rows;
mod step;
pub mod table;
mod waits;
