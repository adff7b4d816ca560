//! Tests of `type_reader`, which takes too long to be proved twice.
#![tactic(auto)]

#[cfg(test)]
mod annotations;
