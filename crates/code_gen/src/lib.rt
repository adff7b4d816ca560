//! The code of a program, written from its modules' trees.
#![tactic(auto)]

mod expressions;
mod functions;
mod locals;
mod modules;
mod operators;
mod scope;
mod sizes;
mod slots;
mod statements;
mod sums;
mod writer;

pub use modules::generate;
