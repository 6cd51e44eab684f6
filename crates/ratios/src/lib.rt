#![tactic(auto)]

mod gcd;
pub mod margin;
pub mod ratio;
pub mod verdict;
