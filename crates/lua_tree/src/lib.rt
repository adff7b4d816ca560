//! The trees of modules, which all parts of `tlua` share: what the parser reads is checked, erased, run and compiled.
//! And the names of the library.
#![tactic(auto)]

mod annotation;
mod measure;
mod names;
mod scoped;
mod syntax;
#[cfg(test)]
mod tests;

pub use annotation::{Name, TypeExpr, TypeField, TypeResults, TypeTuple, Typed};
pub use measure::height;
pub use names::{LibName, lib_named, lib_text};
pub use scoped::{LocalInfo, Require, Scoped, Use};
pub use syntax::{
    BinaryOperator, Block, Body, Chunk, Clause, Entry, Expr, Rest, Return, Stat, UnaryOperator,
};
