//! The call of tlua over the whole language, from the words to the exit status. The program takes it once typed modules are checked here.
#![tactic(auto)]

mod accept;
mod asked;
mod laws;
mod output;
mod report;
mod run;
mod serve;
mod start;
mod status;
mod top;
mod words;

pub use laws::{one_ending, sure_statuses};
pub use status::Status;
pub use top::tlua;

#[cfg(test)]
mod tests;
