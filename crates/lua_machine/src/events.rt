ghost use Rattle.std.specs.Prelude.{◌≡◌, [], IfOk, OnOk};
ghost use Rattle.lua_code.specs.Steps.{begin_turn};
ghost use Rattle.lua_machine.specs.Machines.{next_at, Tells, Settled};

use crate::calls::first_frames;
use crate::closures::Cells;
use crate::frames::Frames;
use crate::lists::function_at;
use crate::pacing::Pace;
use crate::running::run;
use crate::state::State;
use crate::tracing::Tracing;
use lua_code::Proto;
use lua_values::{Text, Value, Values};
use std::alloc::Global;
use tl_base::{List, NoMemory};

/// What a machine tells of the run of its code.
#[derive(Debug, Drop)]
pub enum Event {
    /// The program writes this text.
    Output(Text),
    /// The run has ended.
    Done,
    /// This error's value has ended it.
    Raised(Value),
    /// A turn was wanted, and none was left.
    Spent,
}

/// How far a run has come.
#[derive(Drop)]
pub enum Status {
    /// The block of the main module is yet to begin.
    Fresh,
    /// A function runs.
    Running,
    Done,
    Raised(Value),
    Spent,
    /// The code isn't well formed.
    Stuck,
}

/// The block of the main module takes its turn, and begins.
fn begin(functions: &[Proto], state: &mut State) -> Result<Status, NoMemory>
    ensures { IfOk result (λ status. begin_turn functions.now state.old.store.turns state.old.store ≡ next_at functions.now status state.new) }
{
    if !state.store.take_turn() {
        return Ok(Status::Spent);
    }
    let Some(proto) = function_at(functions, 0) else {
        return Ok(Status::Stuck);
    };
    state.frames = first_frames(state.alloc, 0, proto)?;
    state.closures = List::new(state.alloc);
    Ok(Status::Running)
}

/// Runs on up to the next event.
fn run_on(
    functions: &[Proto],
    state: &mut State,
    status: &mut Status,
    tracing: &mut Tracing,
) -> Result<Event, NoMemory>
    requires { tracing.old.steps.items ≡ [] }
    ensures tells { IfOk result (λ event. Tells functions.now (next_at functions.now Status.Running state.old) event (next_at functions.now status.new state.new) tracing.old.limit tracing.new.steps.items) }
    ensures settled { OnOk result (Settled status.new) }
{
    match run(functions, state, tracing)? {
        Pace::Output(text) => {
            *status = Status::Running;
            Ok(Event::Output(text))
        }
        Pace::Done => {
            *status = Status::Done;
            Ok(Event::Done)
        }
        Pace::Raised(value) => {
            *status = Status::Raised(value.copy()?);
            Ok(Event::Raised(value))
        }
        Pace::Spent => {
            *status = Status::Spent;
            Ok(Event::Spent)
        }
        Pace::On | Pace::Stuck => Err(NoMemory),
    }
}

/// Tells the next event, or the last one again.
pub fn tell(
    functions: &[Proto],
    state: &mut State,
    status: &mut Status,
    tracing: &mut Tracing,
) -> Result<Event, NoMemory>
    requires { tracing.old.steps.items ≡ [] }
    ensures tells { IfOk result (λ event. Tells functions.now (next_at functions.now status.old state.old) event (next_at functions.now status.new state.new) tracing.old.limit tracing.new.steps.items) }
    ensures settled { OnOk result (Settled status.new) }
{
    if matches!(status, Status::Fresh) {
        *status = begin(functions, state)?;
    }
    match status {
        Status::Running => {
            let event = run_on(functions, state, status, tracing)?;
            Ok(event)
        }
        Status::Done => Ok(Event::Done),
        Status::Raised(value) => Ok(Event::Raised(value.copy()?)),
        Status::Spent => Ok(Event::Spent),
        Status::Fresh | Status::Stuck => Err(NoMemory),
    }
}

/// Nothing runs.
pub fn nothing(alloc: Global) -> Result<Frames, NoMemory> {
    let cells = Cells::new(Vec::new(alloc))?;
    Ok(Frames::new(alloc, 0, cells, Values::new(alloc)))
}
