ghost use Rattle.std.specs.Prelude.{◌≡◌, [], ◌∷◌, Option, IfOk, OnOk};
ghost use Rattle.lua_code.specs.declared.code.Instr.TheVariants.{Call, Return};
ghost use Rattle.lua_code.specs.Instructions.{act as obeyed};
ghost use Rattle.lua_code.specs.Configurations.{running, calling, giving, go};
ghost use Rattle.lua_code.specs.Steps.{instruction as meant, begun_in};
ghost use Rattle.lua_machine.specs.Calls.{levels_with_caller};
ghost use Rattle.lua_machine.specs.Runs.{Paces, IsTold, at_work, noted_all};
ghost use Rattle.lua_machine.specs.Pacing.{seen_of};

use crate::act::act;
use crate::calls::{Called, call};
use crate::lists;
use crate::lists::function_at;
use crate::state::{Flow, State};
use crate::tracing::{TraceStep, Tracing};
use lua_code::{Instr, Item, Proto};
use lua_values::{Text, Value, Values};
use tl_base::{NoMemory, Pos};

/// What one instruction comes to, with the begin of the call or the end of the function that it leads to.
#[derive(Drop)]
pub enum Pace {
    /// The function that runs goes on.
    On,
    /// So it does, and a text was written.
    Output(Text),
    /// The run has ended.
    Done,
    /// An error that nothing caught has ended it.
    Raised(Value),
    /// A turn was wanted, and none was left.
    Spent,
    /// The code isn't well formed.
    Stuck,
}

/// The instruction that comes next, with its place in the source, if there is one.
#[inline(always)]
fn instruction<'a>(functions: &'a [Proto], state: &State) -> Option<(&'a Instr, Pos)>
    ensures { seen_of result ≡ meant functions.now state.now.frames.frame }
{
    let proto = function_at(functions, state.frames.function())?;
    let at = state.frames.at() as usize;
    match (proto.code.get(at), proto.places.get(at)) {
        (Some(instr), Some(place)) => Some((instr, *place)),
        _ => None,
    }
}

/// A text is told, but for the empty one.
#[inline(always)]
fn told(text: Text) -> Pace
    ensures { IsTold text result }
{
    if text.bytes().is_empty() {
        Pace::On
    } else {
        Pace::Output(text)
    }
}

/// Begins a call, and ends it where it is done at once.
#[inline(always)]
fn pace_call(
    place: Pos,
    callee: &Value,
    values: &Values,
    functions: &[Proto],
    state: &mut State,
) -> Result<Pace, NoMemory>
    ensures { IfOk result (λ pace. Paces functions.now (go (calling place callee.now values.now (levels_with_caller state.old) state.old.store state.old.closures)) pace state.new []) }
{
    state.store.is_bare();
    match call(place, callee, values, functions, state)? {
        Called::Entered => Ok(Pace::On),
        Called::Gives(text) => {
            let none = Values::new(state.alloc);
            state.frames.push(Item::Many(none))?;
            match text {
                Some(text) => Ok(told(text)),
                None => Ok(Pace::On),
            }
        }
        Called::Raise(value) => Ok(Pace::Raised(value)),
        Called::Spent => Ok(Pace::Spent),
        Called::Stuck => Ok(Pace::Stuck),
    }
}

/// Ends the function that runs, with its results.
#[inline(always)]
fn pace_return(values: Values, functions: &[Proto], state: &mut State) -> Result<Pace, NoMemory>
    ensures { IfOk result (λ pace. Paces functions.now (go (giving values state.old.frames.levels state.old.store state.old.closures)) pace state.new []) }
{
    if !state.frames.leave() {
        return Ok(Pace::Done);
    }
    state.frames.push(Item::Many(values))?;
    Ok(Pace::On)
}

/// Calls what stands below the list on the stack.
#[inline(always)]
fn do_call(place: Pos, functions: &[Proto], state: &mut State) -> Result<Pace, NoMemory>
    ensures { IfOk result (λ pace. Paces functions.now (obeyed functions.now Call place state.old.frames.frame state.old.frames.levels state.old.store state.old.closures) pace state.new []) }
{
    let Some((callee, values)) = lists::callee(place, state)? else {
        return Ok(Pace::Stuck);
    };
    let pace = pace_call(place, &callee, &values, functions, state)?;
    Ok(pace)
}

/// Leaves the function that runs with the list on the stack.
#[inline(always)]
fn do_return(place: Pos, functions: &[Proto], state: &mut State) -> Result<Pace, NoMemory>
    ensures { IfOk result (λ pace. Paces functions.now (obeyed functions.now Return place state.old.frames.frame state.old.frames.levels state.old.store state.old.closures) pace state.new []) }
{
    let Some(values) = lists::results(place, state) else {
        return Ok(Pace::Stuck);
    };
    let pace = pace_return(values, functions, state)?;
    Ok(pace)
}

/// Does one instruction.
#[inline(always)]
pub fn do_next(
    functions: &[Proto],
    state: &mut State,
    tracing: &mut Tracing,
) -> Result<Pace, NoMemory>
    ensures comes { IfOk result (λ pace. Paces functions.now (at_work state.old) pace state.new (begun_in functions.now (running state.old.frames.frame state.old.frames.levels state.old.store state.old.closures))) }
    ensures traced { OnOk result (tracing.new.steps.items ≡ noted_all tracing.old.limit tracing.old.steps.items (begun_in functions.now (running state.old.frames.frame state.old.frames.levels state.old.store state.old.closures))) }
    ensures limit { tracing.new.limit ≡ tracing.old.limit }
{
    let Some((instr, place)) = instruction(functions, state) else {
        return Ok(Pace::Stuck);
    };
    tracing.begin(TraceStep {
        function: state.frames.function(),
        at: state.frames.at(),
    })?;
    match instr {
        Instr::Call => {
            let pace = do_call(place, functions, state)?;
            Ok(pace)
        }
        Instr::Return => {
            let pace = do_return(place, functions, state)?;
            Ok(pace)
        }
        _ => match act(place, instr, functions, state)? {
            Flow::On => Ok(Pace::On),
            Flow::Raise => Ok(Pace::Raised(state.raised.copy()?)),
            Flow::Spent => Ok(Pace::Spent),
            Flow::Stuck => Ok(Pace::Stuck),
        },
    }
}
