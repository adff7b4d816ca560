//! Tests of the machine on codes written by hand. It holds nothing else.
#![tactic(auto)]

#[cfg(test)]
mod machine_tests;
