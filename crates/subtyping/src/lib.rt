//! Whether one type is below another, recursive interfaces included. Pairs of components are assumed to hold until they fail, and those that fail
//! are taken back, until nothing more is.
#![tactic(auto)]

mod compare;
mod marks;
mod meet;
mod members;
mod orders;
mod pairs;
mod sweep;
#[cfg(test)]
mod tests;

pub use orders::{Orders, is_below};
use pairs::{Assumed, Rules, Side};
use tl_base::NoMemory;
use tl_types::Ty;
