//! The meaning of programs, as definitions.
#![tactic(auto)]

mod plain;

pub use plain::plain_programs_run_alike;
