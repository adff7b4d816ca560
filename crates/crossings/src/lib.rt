//! The crossings of a marked module: the list that a report prints.
#![tactic(auto)]

mod list;
mod marks;
#[cfg(test)]
mod tests;

pub use list::crossing_list;
