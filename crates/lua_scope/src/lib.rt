//! What each name of a module means: its local, or a name of the library.
#![tactic(auto)]

mod binding;
mod captures;
mod laws;
mod modules;
mod reading;
mod resolving;
mod scopes;
#[cfg(test)]
mod tests;
mod visible;
mod words;

pub use laws::{
    a_block_hides_what_it_declares, a_local_is_not_seen_in_its_own_initialiser,
    a_statement_ends_where_it_began, an_expression_declares_nothing,
    the_condition_of_repeat_sees_the_locals_of_its_body,
};
pub use modules::{NamedModule, bind};
pub use resolving::resolve;
