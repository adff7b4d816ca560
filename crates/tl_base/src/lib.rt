//! What every crate of tlua speaks of: places, crossings, refusals, want of memory, turns,
//! and lists, texts and boxes that contracts see as what they hold.
#![tactic(auto)]

mod boxes;
mod bytes;
mod crossing;
mod lists;
mod memory;
mod place;
mod refusal;
mod turn;

pub use boxes::Boxed;
pub use bytes::Bytes;
pub use crossing::{CrossKind, Crossing};
pub use lists::List;
pub use memory::NoMemory;
pub use place::{ModuleKind, Pos};
pub use refusal::{Failure, Refusal, RefusalCode};
pub use turn::Turns;

#[cfg(test)]
mod tests;
