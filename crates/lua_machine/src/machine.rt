ghost use Rattle.std.specs.Prelude.{◌≡◌, [], IfOk, OnErr, IsTrue};
ghost use Rattle.lua_meaning.specs.Programs.{start};
ghost use Rattle.lua_machine.specs.World.{kind_error_of};
ghost use Rattle.lua_machine.specs.Machines.{Sight, Advances, Loses, Keeps, Begins};

use crate::events::{Event, Status, nothing, tell};
use crate::state::State;
use crate::store::Store;
use crate::tracing::{TraceStep, Tracing};
use lua_code::Code;
use lua_values::Value;
use std::alloc::Global;
use std::marker::Model;
use tl_base::{Bytes, Crossing, List, ModuleKind, NoMemory, Pos};

/// A machine that runs code, and tells what comes of it, one event after the other. Its users keep the program's output.
#[derive(Drop)]
pub struct Machine {
    code: Code,
    state: State,
    status: Status,
    lost: bool,
    trace: Vec<TraceStep>,
    limit: usize,
}

impl Model for Machine {
    ghost use Rattle.lua_machine.specs.Machines.{Sight, next_at};

    ghost Value = { Sight };

    ghost view = { λ m. record { code = m.code; lost = m.lost; next = next_at m.code.functions m.status m.state; turns = m.state.store.turns; mark = m.state.store.mark; error = m.state.store.error; trace = m.trace.items; limit = m.limit } };
}

impl Machine {
    /// A machine that is to run code for modules of these file words and kinds, with so many turns, and to trace its first steps.
    pub fn new(
        alloc: Global,
        code: Code,
        files: List<Bytes>,
        kinds: List<ModuleKind>,
        turns: u64,
        trace: u32,
    ) -> Result<Machine, NoMemory>
        ensures { IfOk result (λ machine. Begins code (start kinds files [] turns) trace machine) }
    {
        let state = State {
            alloc,
            frames: nothing(alloc)?,
            store: Store::new(alloc, files, kinds, turns),
            closures: List::new(alloc),
            raised: Value::Nil,
        };
        Ok(Machine {
            code,
            state,
            status: Status::Fresh,
            lost: false,
            trace: Vec::new(alloc),
            limit: trace as usize,
        })
    }

    /// Runs on up to the next event, and tells it. After the end of the run the same event comes again; after want of memory nothing else comes.
    pub fn advance(&mut self) -> Result<Event, NoMemory>
        ensures ok { IfOk result (λ event. Advances self.old self.new event) }
        ensures err { OnErr result (Loses self.old self.new) }
    {
        let turns = self.state.store.turns();
        let mark = self.state.store.mark();
        let error = self.state.store.error();
        match self.told() {
            Ok(event) => Ok(event),
            Err(failed) => {
                self.lost = true;
                self.state.store.set_back(turns, mark, error);
                Err(failed)
            }
        }
    }

    /// Runs on up to the next event, where no memory was lost.
    fn told(&mut self) -> Result<Event, NoMemory>
        ensures ok { IfOk result (λ event. Advances self.old self.new event) }
        ensures err { OnErr result (Keeps self.old self.new) }
    {
        if self.lost {
            return Err(NoMemory);
        }
        let room = self.limit.saturating_sub(self.trace.as_slice().len());
        let mut tracing = Tracing::new(self.state.alloc, room);
        let functions = self.code.functions.as_slice();
        let event = tell(functions, &mut self.state, &mut self.status, &mut tracing)?;
        self.trace.extend_from_slice(tracing.steps.as_slice())?;
        self.state.store.is_bare();
        Ok(event)
    }

    /// How many turns are left.
    pub fn turns_left(&self) -> u64
        ensures { result ≡ self.now.turns }
    {
        self.state.store.turns()
    }

    /// The code that the machine runs.
    pub fn code(&self) -> &Code
        ensures { result.now ≡ self.now.code }
    {
        &self.code
    }

    /// The first crossing that the run passed.
    pub fn first_crossing(&self) -> Option<Crossing>
        ensures { result ≡ self.now.mark }
    {
        self.state.store.mark()
    }

    /// The place of the first error of kinds in a typed module, caught or not, with the first crossing that the run had passed then.
    pub fn first_kind_error(&self) -> Option<(Pos, Option<Crossing>)>
        ensures { kind_error_of result ≡ self.now.error }
    {
        self.state.store.error()
    }

    /// The first instructions begun.
    pub fn trace(&self) -> &[TraceStep]
        ensures { result.now ≡ self.now.trace }
    {
        self.trace.as_slice()
    }
}
