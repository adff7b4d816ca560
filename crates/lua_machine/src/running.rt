ghost use Rattle.std.specs.Prelude.{◌≡◌, IfOk, OnOk};
ghost use Rattle.lua_machine.specs.Runs.{RunsTo, at_work};

use crate::pacing::{Pace, do_next};
use crate::state::State;
use crate::tracing::Tracing;
use lua_code::Proto;
use tl_base::NoMemory;

/// Does one instruction after the other until there is something to tell.
pub fn run(functions: &[Proto], state: &mut State, tracing: &mut Tracing) -> Result<Pace, NoMemory>
    ensures { IfOk result (λ pace. RunsTo functions.now (at_work state.old) pace state.new tracing.old.limit tracing.old.steps.items tracing.new.steps.items) }
{
    for _ in 0..u64::MAX {
        match do_next(functions, state, tracing)? {
            Pace::On => {}
            pace => return Ok(pace),
        }
    }
    Err(NoMemory)
}
