//! Types modules by the rules and marks their crossings: so far straight-line modules.
#![tactic(auto)]

mod expressions;
mod flows;
mod locals;
mod modules;
mod statements;
#[cfg(test)]
mod tests;

pub use expressions::{Typed, expression, refused, refused_at};
pub use flows::flow_into;
pub use modules::check_module;
