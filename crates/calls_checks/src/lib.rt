#![tactic(auto)]

#[cfg(test)]
mod ahead_tests;
#[cfg(test)]
mod call_tests;
