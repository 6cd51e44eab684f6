#![tactic(auto)]

mod entries;
mod lists;
mod numbered_lines;
pub mod read;
mod reading;
mod reserved;
pub mod room;
mod tables;
