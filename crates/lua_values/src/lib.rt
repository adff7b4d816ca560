//! The values that a program computes with: texts, integers of 64 bits, and the definition of a table.
#![tactic(auto)]

mod integers;
mod laws;
mod numerals;
mod shown;
mod text;
mod value;
mod values;

pub use integers::{add, band, bnot, bor, bxor, idiv, modulo, mul, neg, shl, shr, sub};
pub use laws::{
    border_is_least, division_fails_by_zero, keys_keep_their_places, next_goes_in_order,
    quotient_and_remainder, remainder_has_sign_of_divisor, shifts_empty_words,
    tables_give_what_was_stored, words_wrap,
};
pub use numerals::read_integer;
pub use shown::{integer_text, raw_text};
pub use text::Text;
pub use value::Value;
pub use values::Values;

#[cfg(test)]
mod tests;
