ghost use Rattle.std.specs.Prelude.{◌≡◌, IfOk, OnOk};
ghost use Rattle.lua_code.specs.Instructions.{answered as meant, fail, kind_error};
ghost use Rattle.lua_machine.specs.Answers.{answer_of};
ghost use Rattle.lua_machine.specs.Frames.{at_next, with_item};
ghost use Rattle.lua_machine.specs.Flows.{Obeys};

use crate::closures::Closure;
use crate::frames::Frames;
use crate::operators::Answered;
use crate::store::Store;
use lua_code::Item;
use lua_values::{Text, Value};
use std::alloc::Global;
use tl_base::{Bytes, List, NoMemory, Pos};

/// What a machine runs on: the functions at work, what they keep, and the closures made.
#[derive(Drop)]
pub struct State {
    pub alloc: Global,
    pub frames: Frames,
    pub store: Store,
    pub closures: List<Closure>,
    /// The value of the last error.
    pub raised: Value,
}

/// What an instruction comes to that neither calls nor leaves the function that runs. It holds nothing, so that it costs nothing to hand over.
#[derive(Clone, Copy, Debug, PartialEq, Eq)]
pub enum Flow {
    /// The function that runs goes on.
    On,
    /// An error leaves it, and all that wait.
    Raise,
    /// A turn was wanted, and none was left.
    Spent,
    /// The code isn't well formed.
    Stuck,
}

impl State {
    /// Puts an item on the stack, and goes on.
    #[inline(always)]
    pub fn push_on(&mut self, item: Item) -> Result<(), NoMemory>
        ensures { OnOk result (self.new ≡ record self.old { frames = at_next (with_item item self.old.frames) }) }
    {
        self.frames.push(item)?;
        self.frames.advance()
    }
}

/// Raises an error at a place.
#[inline(never)]
pub fn raise(place: Pos, what: Bytes, state: &mut State) -> Result<Flow, NoMemory>
    ensures { IfOk result (λ flow. Obeys (fail what) place state.old state.new flow) }
{
    let text = state.store.error_text(state.alloc, place, what.as_slice())?;
    state.raised = Value::Str(Text::new(state.alloc, text.as_slice())?);
    Ok(Flow::Raise)
}

/// Raises an error of kinds at a place, and records it.
#[inline(never)]
pub fn raise_kind(place: Pos, what: Bytes, state: &mut State) -> Result<Flow, NoMemory>
    ensures { IfOk result (λ flow. Obeys (kind_error what) place state.old state.new flow) }
{
    let text = state.store.error_text(state.alloc, place, what.as_slice())?;
    state.store.record(place);
    state.raised = Value::Str(Text::new(state.alloc, text.as_slice())?);
    Ok(Flow::Raise)
}

/// Goes on with what an operator answered.
#[inline(never)]
pub fn answer(place: Pos, answered: Answered, state: &mut State) -> Result<Flow, NoMemory>
    ensures { IfOk result (λ flow. Obeys (meant (answer_of answered)) place state.old state.new flow) }
{
    match answered {
        Answered::Value(value) => {
            state.push_on(Item::One(value))?;
            Ok(Flow::On)
        }
        Answered::WrongKind(what) => raise_kind(place, what, state),
        Answered::Fails(what) => raise(place, what, state),
    }
}
