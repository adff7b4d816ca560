//! The types of typed modules: unions, general forms, positions of tuples, sizes, and the two orders as definitions.
#![tactic(auto)]

mod copies;
mod equality;
mod flow;
pub mod laws;
mod sizes;
#[cfg(test)]
mod tests;
mod text;
mod types;
mod unions;

pub use equality::same;
pub use flow::Flow;
pub use sizes::{depth, size};
pub use text::Text;
use tl_base::{Bytes, NoMemory};
pub use types::{
    Field, FieldOf, Func, FuncOf, Interfaces, Results, ResultsOf, Tuple, TupleOf, Ty, TyError,
};
pub use unions::{boolean, general, position, union_of};
