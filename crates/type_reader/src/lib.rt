//! The types of a typed module's annotations, and the type names that it declares.
#![tactic(auto)]

mod annotations;
mod building;
mod checking;
mod circles;
mod collecting;
mod declarations;
mod faults;
mod graph;
mod joining;
mod lookups;
mod members;
mod names;
mod other_names;
mod own_names;
mod ranks;
mod reading;
mod typing;
mod union_sizes;
mod uses;

pub use names::{TypeName, TypeNames};
pub use reading::{TypedChunk, read_types};
