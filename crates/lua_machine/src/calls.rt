ghost use Rattle.std.specs.Prelude.{◌≡◌, ◌++◌, ◌+◌, ◌-◌, ◌<◌, ◌↔◌, [], ◌∷◌, map, slice_get, IsTrue, IfOk, OnOk};
ghost use Rattle.lua_values.specs.Shown.{shown_text};
ghost use Rattle.lua_meaning.specs.Trees.{adjust};
ghost use Rattle.lua_meaning.specs.Calls.{limit, printed as meant_printed};
ghost use Rattle.lua_code.specs.Configurations.{calls_at_work, calling};
ghost use Rattle.lua_code.specs.Steps.{further as meant_further, frame_of, enter_turn as meant_enter_turn, library as meant_library, overflow as meant_overflow, step};
ghost use Rattle.lua_machine.specs.Calls.{levels_with_caller, next_of_call, not_called, printed_on};
ghost use Rattle.lua_machine.specs.Frames.{entered, slot_values, with_values};

use crate::closures::Cells;
use crate::frames::Frames;
use crate::lists::{copied, function_at, or_nil};
use crate::operators::worded;
use crate::state::State;
use lua_code::{Proto, Slot};
use lua_tree::LibName;
use lua_values::{Text, Value, Values, raw_text};
use std::alloc::Global;
use tl_base::{Bytes, NoMemory, Pos};

/// So many calls may run at once.
const LIMIT: usize = 100000;

/// How a call begins.
#[derive(Drop)]
pub enum Called {
    /// A function begins.
    Entered,
    /// It is done, without results, and wrote this text, if any.
    Gives(Option<Text>),
    /// It fails.
    Raise(Value),
    /// A turn was wanted, and none was left.
    Spent,
    /// The code isn't well formed.
    Stuck,
}

/// Gives the function that runs so many slots more: a list that is cut, or filled with nil.
fn fill(count: u64, values: &[Value], frames: &mut Frames) -> Result<(), NoMemory>
    ensures { OnOk result (frames.new ≡ with_values (adjust count values.now) frames.old) }
{
    for at in 0..count {
        frames.push_slot(Slot::Held(or_nil(values, at as usize)?))?;
    }
    Ok(())
}

/// The further arguments, where the function takes them.
fn further(alloc: Global, vararg: bool, count: u64, values: &[Value]) -> Result<Values, NoMemory>
    ensures { IfOk result (λ rest. rest ≡ meant_further vararg count values.now) }
{
    let start = count as usize;
    if vararg && start < values.len() {
        copied(alloc, &values[start..])
    } else {
        Ok(Values::new(alloc))
    }
}

/// Gives the function that runs its slots: its arguments, and nil in the others.
fn fill_slots(proto: &Proto, values: &[Value], frames: &mut Frames) -> Result<(), NoMemory>
    ensures { OnOk result (frames.new ≡ with_values (slot_values proto.now values.now) frames.old) }
{
    fill(proto.params, values, frames)?;
    fill(proto.slots.saturating_sub(proto.params), &[], frames)?;
    Ok(())
}

/// The functions at work where one begins, without arguments, and none waits.
pub fn first_frames(alloc: Global, number: u64, proto: &Proto) -> Result<Frames, NoMemory>
    ensures { IfOk result (λ frames. frames ≡ record { frame = frame_of number proto.now [] []; levels = [] }) }
{
    let cells = Cells::new(Vec::new(alloc))?;
    let rest = further(alloc, proto.vararg, proto.params, &[])?;
    let mut frames = Frames::new(alloc, number, cells, rest);
    fill_slots(proto, &[], &mut frames)?;
    Ok(frames)
}

/// A function begins with its arguments, and the one that ran waits for its results.
fn enter(
    alloc: Global,
    number: u64,
    proto: &Proto,
    cells: Cells,
    values: &[Value],
    frames: &mut Frames,
) -> Result<(), NoMemory>
    ensures { OnOk result (frames.new ≡ entered (frame_of number proto.now cells values.now) frames.old) }
{
    let rest = further(alloc, proto.vararg, proto.params, values)?;
    frames.enter(number, cells, rest)?;
    fill_slots(proto, values, frames)?;
    Ok(())
}

/// Takes a function's turn, and begins it.
fn enter_turn(
    number: u64,
    values: &Values,
    functions: &[Proto],
    state: &mut State,
) -> Result<Called, NoMemory>
    ensures { IfOk result (λ called. meant_enter_turn functions.now state.old.store.turns number values.now (levels_with_caller state.old) state.old.store state.old.closures ≡ next_of_call called state.new) }
{
    if !state.store.take_turn() {
        return Ok(Called::Spent);
    }
    let Some(closure) = state.closures.get(number.saturating_sub(1) as usize) else {
        return Ok(Called::Gives(None));
    };
    let function = closure.function;
    let cells = closure.cells.share()?;
    let Some(proto) = function_at(functions, function) else {
        return Ok(Called::Stuck);
    };
    enter(
        state.alloc,
        function,
        proto,
        cells,
        values.as_slice(),
        &mut state.frames,
    )?;
    Ok(Called::Entered)
}

/// Puts the texts of values behind a text, with a tab before each.
fn print_on(alloc: Global, values: &[Value], text: &mut Bytes) -> Result<(), NoMemory>
    ensures { OnOk result (text.new ++ 10 ∷ [] ≡ text.old ++ printed_on values.now) }
{
    for value in values {
        text.push(9)?;
        text.extend(raw_text(alloc, value)?.bytes())?;
    }
    Ok(())
}

/// The texts of a value and of others with a tab before each, and a line feed.
fn line_of(alloc: Global, value: &Value, others: &[Value]) -> Result<Text, NoMemory>
    ensures { IfOk result (λ text. text ≡ shown_text value.now ++ printed_on others.now) }
{
    let mut text = Bytes::new(alloc);
    text.extend(raw_text(alloc, value)?.bytes())?;
    print_on(alloc, others, &mut text)?;
    text.push(10)?;
    Text::new(alloc, text.as_slice())
}

/// The line that `print` writes.
fn printed(alloc: Global, values: &[Value]) -> Result<Text, NoMemory>
    ensures { IfOk result (λ text. text ≡ meant_printed values.now) }
{
    match values.first() {
        Some(value) => {
            let text = line_of(alloc, value, &values[1..])?;
            Ok(text)
        }
        None => Text::new(alloc, b"\n"),
    }
}

/// A function of the library.
fn library(name: LibName, values: &Values, state: &State) -> Result<Called, NoMemory>
    ensures { IfOk result (λ called. meant_library name values.now (levels_with_caller state.now) state.now.store state.now.closures ≡ next_of_call called state.now) }
{
    match name {
        LibName::Print => {
            let text = printed(state.alloc, values.as_slice())?;
            Ok(Called::Gives(Some(text)))
        }
        _ => Ok(Called::Gives(None)),
    }
}

/// Whether one call more may begin.
#[inline(always)]
fn has_room(state: &State) -> bool
    ensures { IsTrue result ↔ (0 < limit - (calls_at_work state.now.frames.levels + 1)) }
{
    state.frames.waiting() < LIMIT - 1
}

/// Too many calls run at once.
fn overflow(place: Pos, state: &State) -> Result<Called, NoMemory>
    ensures { IfOk result (λ called. meant_overflow place (levels_with_caller state.now) state.now.store state.now.closures ≡ next_of_call called state.now) }
{
    let text = state
        .store
        .error_text(state.alloc, place, b"stack overflow")?;
    Ok(Called::Raise(Value::Str(Text::new(state.alloc, text.as_slice())?)))
}

/// What is called is no function.
fn no_function(place: Pos, callee: &Value, state: &mut State) -> Result<Called, NoMemory>
    ensures { IfOk result (λ called. not_called place callee.now (levels_with_caller state.old) state.old.store state.old.closures ≡ next_of_call called state.new) }
{
    let what = worded(state.alloc, "call of a ", callee)?;
    let text = state.store.error_text(state.alloc, place, what.as_slice())?;
    state.store.record(place);
    Ok(Called::Raise(Value::Str(Text::new(state.alloc, text.as_slice())?)))
}

/// Begins a call at a place, for which the function that runs waits.
pub fn call(
    place: Pos,
    callee: &Value,
    values: &Values,
    functions: &[Proto],
    state: &mut State,
) -> Result<Called, NoMemory>
    ensures { IfOk result (λ called. step functions.now (calling place callee.now values.now (levels_with_caller state.old) state.old.store state.old.closures) ≡ next_of_call called state.new) }
{
    match callee {
        Value::Closure(number) => {
            if has_room(state) {
                enter_turn(*number, values, functions, state)
            } else {
                overflow(place, state)
            }
        }
        Value::Builtin(name) => {
            if has_room(state) {
                library(*name, values, state)
            } else {
                overflow(place, state)
            }
        }
        _ => no_function(place, callee, state),
    }
}
