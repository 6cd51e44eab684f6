#![tactic(auto)]

#[cfg(test)]
mod ledger_tests;
#[cfg(test)]
mod table_tests;
