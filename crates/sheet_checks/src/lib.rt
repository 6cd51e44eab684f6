#![tactic(auto)]

#[cfg(test)]
mod sheet_tests;
