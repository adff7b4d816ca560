ghost use Rattle.std.specs.Prelude.{◌≡◌, OnOk, []};
ghost use Rattle.lua_machine.specs.Runs.{noted};

use std::alloc::Global;
use tl_base::NoMemory;

/// An instruction that was begun: its function's number, and its place there.
#[derive(Clone, Copy, Debug, PartialEq, Eq)]
pub struct TraceStep {
    pub function: u64,
    pub at: u64,
}

/// The instructions begun, as far as there is room for them.
#[derive(Drop)]
pub struct Tracing {
    pub steps: Vec<TraceStep>,
    pub limit: usize,
}

impl Tracing {
    /// Nothing was begun.
    pub fn new(alloc: Global, limit: usize) -> Tracing
        ensures steps { result.steps.items ≡ [] }
        ensures limit { result.limit ≡ limit }
    {
        Tracing {
            steps: Vec::new(alloc),
            limit,
        }
    }

    /// An instruction begins.
    #[inline(always)]
    pub fn begin(&mut self, step: TraceStep) -> Result<(), NoMemory>
        ensures steps { OnOk result (self.new.steps.items ≡ noted self.old.limit self.old.steps.items step) }
        ensures limit { self.new.limit ≡ self.old.limit }
    {
        if self.steps.as_slice().len() < self.limit {
            self.steps.push(step)?;
        }
        Ok(())
    }
}
