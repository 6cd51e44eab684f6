#![tactic(auto)]

mod lookup;
pub mod opening;
pub mod player;
pub mod playing;
mod records;
pub mod work;
