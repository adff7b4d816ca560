//! The tokens of a Lua text with optional types, each with its span and place, or the first refusal.
#![tactic(auto)]

mod brackets;
mod escapes;
mod letters;
mod lexing;
mod lines;
mod numerals;
mod pieces;
mod separators;
mod signs;
mod strings;
#[cfg(test)]
mod tests;
mod theorems;
mod token;
mod words;

pub use lexing::lex;
pub use theorems::{
    at_most_one_list, at_most_one_refusal, places_count_line_ends, tokens_are_in_order,
    tokens_or_refusal,
};
pub use token::{Keyword, Symbol, Token, TokenKind};
