//! The typing rules of typed modules, as definitions that the check's contract and the soundness law cite: so far straight-line modules.
#![tactic(auto)]

mod annotation;
mod laws;
mod local;
mod operand;
#[cfg(test)]
mod tests;

pub use annotation::{type_place, type_written};
pub use laws::{crossing_lists_are_unique, orders_are_decided, typing_adds_marks_alone};
pub use local::{Local, declared_for};
use lua_tree::{BinaryOperator, TypeExpr};
pub use operand::{Fit, integer_fit, is_ruled, operation_type};
use tl_base::{NoMemory, Pos};
use tl_types::{Ty, TyError};
