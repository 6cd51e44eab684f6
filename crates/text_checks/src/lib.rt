#![tactic(auto)]

#[cfg(test)]
mod text_tests;
