//! Tests of `code_gen` over programs that are read. It holds nothing else.
#![tactic(auto)]

#[cfg(test)]
mod listings;
