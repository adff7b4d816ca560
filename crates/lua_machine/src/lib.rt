//! A machine that runs stack code step by step, and tells what comes of it.
#![tactic(auto)]

mod act;
mod calls;
mod closures;
mod events;
mod frames;
mod jumps;
mod laws;
mod lists;
mod machine;
mod operators;
mod pacing;
mod rows;
mod running;
mod state;
mod store;
mod sums;
#[cfg(test)]
mod tests;
mod tracing;

pub use events::Event;
pub use laws::runs_keep_the_outside;
pub use machine::Machine;
pub use tracing::TraceStep;
