#![tactic(auto)]

#[cfg(test)]
mod figures_tests;
