//! Stack code: what a program becomes, how it runs step by step, and how it is written.
#![tactic(auto)]

mod code;
mod frames;
mod laws;
#[cfg(test)]
mod tests;
mod writing;

pub use code::{Capture, Code, Instr, Proto};
pub use frames::{Item, Slot};
pub use laws::{code_has_the_meaning, code_is_well_formed, runs_end_once};
pub use writing::{line, listing};
