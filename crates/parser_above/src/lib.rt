//! Tests of `lua_parser`, which takes too long to be proved twice.
#![tactic(auto)]

#[cfg(test)]
mod cuts;
#[cfg(test)]
mod depth;
#[cfg(test)]
mod faults;
#[cfg(test)]
mod shapes;
