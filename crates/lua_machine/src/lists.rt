ghost use Rattle.std.specs.Prelude.{◌≡◌, ℕ, List, [], ◌∷◌, ◌++◌, map, drop, reverse, slice_get, slice_index_or, Option, None, Some, MatchOption, MatchResult, IfOk, OnOk};
ghost use Rattle.lua_values.specs.declared.value.Value.{Value as Held};
ghost use Rattle.lua_values.specs.declared.value.Value.TheVariants as held;
ghost use Rattle.lua_code.specs.declared.code.Proto.{Proto as Meant};
ghost use Rattle.lua_code.specs.declared.frames.Item.TheVariants as item;
ghost use Rattle.lua_code.specs.Instructions.{push as meant_push, pop_list, pop_values as meant_pop_values, push_value, push_all, push_rest, dup as meant_dup, close as meant_close, call as meant_call, leave as meant_leave, pop_value, spread as meant_spread};
ghost use Rattle.lua_meaning.specs.Trees.{adjust, first_of};
ghost use Rattle.lua_machine.specs.Frames.{with_item, with_stack, PopsMany};
ghost use Rattle.lua_machine.specs.Lists.{taken, cell_here, cells_here};
ghost use Rattle.std.specs.Option.{option_copied};
ghost use Rattle.lua_machine.specs.Flows.{Obeys, next_of_callee, next_of_results};

use crate::closures::{Cells, Closure};
use crate::frames::Frames;
use crate::state::{Flow, State};
use lua_code::{Capture, Item, Proto, Slot};
use lua_values::{Value, Values};
use smallvec::SmallVec;
use std::alloc::Global;
use tl_base::{NoMemory, Pos};

/// The value at an index from 0, or nil past the end.
#[inline(always)]
pub fn or_nil(values: &[Value], at: usize) -> Result<Value, NoMemory>
    ensures { IfOk result (λ value. value ≡ slice_index_or values.now at held.Nil) }
{
    match values.get(at) {
        Some(value) => Ok(again(value)?),
        None => Ok(Value::Nil),
    }
}

/// The same value once more. An integer, which most are, is copied in place.
#[inline(always)]
pub fn again(value: &Value) -> Result<Value, NoMemory>
    ensures { IfOk result (λ again. again ≡ value.now) }
{
    if let Value::Int(number) = value {
        return Ok(Value::Int(*number));
    }
    value.copy()
}

/// The same values once more.
pub fn copied(alloc: Global, values: &[Value]) -> Result<Values, NoMemory>
    ensures { IfOk result (λ copies. copies ≡ values.now) }
{
    let mut copies = Values::new(alloc);
    for value in values {
        copies.push(value.copy()?)?;
    }
    Ok(copies)
}

/// Takes so many values from the stack, the top first; false where something else stands there.
#[inline(always)]
fn pop_many(
    count: u64,
    popped: &mut SmallVec<Value, 4>,
    frames: &mut Frames,
) -> Result<bool, NoMemory>
    ensures { IfOk result (λ all. PopsMany all (taken count (reverse popped.old.items) frames.old.frame.stack) (reverse popped.new.items) frames.old frames.new) }
{
    for _ in 0..count {
        let Some(Item::One(value)) = frames.pop() else {
            return Ok(false);
        };
        popped.push(value)?;
    }
    Ok(true)
}

/// The values that were taken from the stack, the top last, with others behind them.
#[inline(always)]
fn turned_round(
    alloc: Global,
    mut popped: SmallVec<Value, 4>,
    above: &[Value],
) -> Result<Values, NoMemory>
    ensures { IfOk result (λ values. values ≡ reverse popped.items ++ above.now) }
{
    let mut values = Values::new(alloc);
    while let Some(value) = popped.pop() {
        values.push(value)?;
    }
    for value in above {
        values.push(value.copy()?)?;
    }
    Ok(values)
}

/// Takes so many values from the stack, the top last, and others behind them, and puts their list there.
#[inline(never)]
fn pack_with(place: Pos, count: u64, above: &[Value], state: &mut State) -> Result<Flow, NoMemory>
    ensures { IfOk result (λ flow. Obeys (meant_pop_values count above.now (λ vs. meant_push (item.Many vs))) place state.old state.new flow) }
{
    let mut popped = SmallVec::new(state.alloc);
    if !pop_many(count, &mut popped, &mut state.frames)? {
        return Ok(Flow::Stuck);
    }
    let values = turned_round(state.alloc, popped, above)?;
    state.push_on(Item::Many(values))?;
    Ok(Flow::On)
}

/// So many values become a list.
#[inline(always)]
pub fn pack(place: Pos, count: u64, state: &mut State) -> Result<Flow, NoMemory>
    ensures { IfOk result (λ flow. Obeys (meant_pop_values count [] (λ vs. meant_push (item.Many vs))) place state.old state.new flow) }
{
    match count {
        0 => {
            let none = Values::new(state.alloc);
            state.push_on(Item::Many(none))?;
            Ok(Flow::On)
        }
        1 => {
            let Some(Item::One(value)) = state.frames.pop() else {
                return Ok(Flow::Stuck);
            };
            let mut values = Values::new(state.alloc);
            values.push(value)?;
            state.push_on(Item::Many(values))?;
            Ok(Flow::On)
        }
        _ => pack_with(place, count, &[], state),
    }
}

/// So many values and the list above them become a list.
#[inline(always)]
pub fn cons(place: Pos, count: u64, state: &mut State) -> Result<Flow, NoMemory>
    ensures { IfOk result (λ flow. Obeys (pop_list (λ vs. meant_pop_values count vs (λ vs. meant_push (item.Many vs)))) place state.old state.new flow) }
{
    let Some(Item::Many(above)) = state.frames.pop() else {
        return Ok(Flow::Stuck);
    };
    pack_with(place, count, above.as_slice(), state)
}

/// The first value of a list.
#[inline(always)]
#[tactic(auto, using(crate::proofs::Operands::first_is))]
pub fn first(place: Pos, state: &mut State) -> Result<Flow, NoMemory>
    ensures { IfOk result (λ flow. Obeys (pop_list (λ vs. push_value (first_of vs))) place state.old state.new flow) }
{
    let Some(Item::Many(values)) = state.frames.pop() else {
        return Ok(Flow::Stuck);
    };
    let value = or_nil(values.as_slice(), 0)?;
    state.push_on(Item::One(value))?;
    Ok(Flow::On)
}

/// Puts so many values on the stack, one above the other: a list that is cut, or filled with nil.
#[inline(always)]
fn push_each(count: u64, values: &[Value], frames: &mut Frames) -> Result<(), NoMemory>
    ensures { OnOk result (frames.new ≡ with_stack (meant_spread (adjust count values.now) frames.old.frame.stack) frames.old) }
{
    for at in 0..count {
        frames.push(Item::One(or_nil(values, at as usize)?))?;
    }
    Ok(())
}

/// Puts the values of a list on the stack, cut or filled to so many.
#[inline(always)]
pub fn spread(place: Pos, count: u64, state: &mut State) -> Result<Flow, NoMemory>
    ensures { IfOk result (λ flow. Obeys (pop_list (λ vs. push_all (adjust count vs))) place state.old state.new flow) }
{
    let Some(Item::Many(values)) = state.frames.pop() else {
        return Ok(Flow::Stuck);
    };
    push_each(count, values.as_slice(), &mut state.frames)?;
    state.frames.advance()?;
    Ok(Flow::On)
}

/// An item once more.
#[inline(always)]
fn item_again(alloc: Global, item: &Item) -> Result<Item, NoMemory>
    ensures { IfOk result (λ again. again ≡ item.now) }
{
    match item {
        Item::One(value) => Ok(Item::One(value.copy()?)),
        Item::Many(values) => Ok(Item::Many(copied(alloc, values.as_slice())?)),
    }
}

/// The top of the stack twice.
#[inline(always)]
pub fn dup(place: Pos, state: &mut State) -> Result<Flow, NoMemory>
    ensures { IfOk result (λ flow. Obeys meant_dup place state.old state.new flow) }
{
    let Some(top) = state.frames.pop() else {
        return Ok(Flow::Stuck);
    };
    let again = item_again(state.alloc, &top)?;
    state.frames.push(top)?;
    state.push_on(again)?;
    Ok(Flow::On)
}

/// The list of the further arguments.
pub fn rest(place: Pos, state: &mut State) -> Result<Flow, NoMemory>
    ensures { IfOk result (λ flow. Obeys push_rest place state.old state.new flow) }
{
    let values = copied(state.alloc, state.frames.rest())?;
    state.push_on(Item::Many(values))?;
    Ok(Flow::On)
}

/// Takes the list of arguments and the value below it, which is to be called; `None` where they aren't there.
#[inline(always)]
pub fn callee(place: Pos, state: &mut State) -> Result<Option<(Value, Values)>, NoMemory>
    ensures { IfOk result (λ taken. pop_list (λ vs. pop_value (λ callee. meant_call callee vs)) place state.old.frames.frame state.old.frames.levels state.old.store state.old.closures ≡ next_of_callee taken place state.new) }
{
    let Some(Item::Many(values)) = state.frames.pop() else {
        return Ok(None);
    };
    let Some(Item::One(callee)) = state.frames.pop() else {
        return Ok(None);
    };
    state.frames.advance()?;
    Ok(Some((callee, values)))
}

/// Takes the list of results on the stack; `None` where there is none.
#[inline(always)]
pub fn results(place: Pos, state: &mut State) -> Option<Values>
    ensures { pop_list (λ vs. meant_leave vs) place state.old.frames.frame state.old.frames.levels state.old.store state.old.closures ≡ next_of_results result state.new }
{
    let Some(Item::Many(values)) = state.frames.pop() else {
        return None;
    };
    Some(values)
}

/// The cell that a closure captures here, if it is there.
#[inline(always)]
fn cell_of(frames: &Frames, capture: Capture) -> Option<u64>
    ensures { result ≡ cell_here frames.now.frame capture }
{
    match capture {
        Capture::Cell(at) => match frames.slot(at) {
            Some(Slot::Cell(cell)) => Some(*cell),
            _ => None,
        },
        Capture::Outer(at) => frames.captured(at),
    }
}

/// The cells that a closure captures here, if each is there.
fn cells_of(alloc: Global, frames: &Frames, captures: &[Capture]) -> Result<Option<Cells>, NoMemory>
    ensures { IfOk result (λ cells. cells ≡ cells_here frames.now.frame captures.now) }
{
    let mut cells = Vec::new(alloc);
    for capture in captures {
        let Some(cell) = cell_of(frames, *capture) else {
            return Ok(None);
        };
        cells.push(cell)?;
    }
    Ok(Some(Cells::new(cells)?))
}

/// The function of this number, if there is one.
#[inline(always)]
pub fn function_at(functions: &[Proto], number: u64) -> Option<&Proto>
    ensures { option_copied result ≡ slice_get functions.now number }
{
    functions.get(number as usize)
}

/// A closure of the function of this number.
pub fn close(
    place: Pos,
    functions: &[Proto],
    number: u64,
    state: &mut State,
) -> Result<Flow, NoMemory>
    ensures { IfOk result (λ flow. Obeys (meant_close number (slice_get functions.now number)) place state.old state.new flow) }
{
    let Some(proto) = function_at(functions, number) else {
        return Ok(Flow::Stuck);
    };
    let Some(cells) = cells_of(state.alloc, &state.frames, proto.captures.as_slice())? else {
        return Ok(Flow::Stuck);
    };
    state.closures.push(Closure {
        function: number,
        cells,
    })?;
    let made = state.closures.len() as u64;
    state.push_on(Item::One(Value::Closure(made)))?;
    Ok(Flow::On)
}
