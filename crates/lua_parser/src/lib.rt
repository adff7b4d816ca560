//! The grammar of Lua with optional types, and the reading of a module's tree.
#![tactic(auto)]

mod annotations;
mod blocks;
mod cursor;
mod declarations;
mod expressions;
mod frames;
mod labels;
mod limits;
mod meeting;
mod operators;
mod parsing;
mod prefixes;
mod reader;
mod refusals;
mod seen;
mod signs;
mod stack;
mod starters;
mod statements;
mod tables;
mod taking;
mod tally;
mod theorems;
mod type_parts;
mod types;
mod verdicts;

pub use parsing::parse;
pub use theorems::{
    at_most_one_fault, at_most_one_too_deep, at_most_one_tree, label_stays, nesting_stays,
    no_fault_in_a_tree, one_code, one_label, too_deep_before_fault, tree_or_fault,
    uses_are_numbered,
};
