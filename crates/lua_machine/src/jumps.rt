ghost use Rattle.std.specs.Prelude.{◌≡◌, not, IfOk, MatchOption, ◌+ℤ◌, true, false, slice_get};
ghost use Rattle.lua_meaning.specs.Operators.{is_true, runs_for};
ghost use Rattle.lua_code.specs.Instructions.{pop_value, jump_where, keep_where, loop_slots, begin_loop, step_loop, bound as meant_bound, take_turn, pass_at, wrong_bound as meant_wrong_bound};
ghost use Rattle.lua_machine.specs.Flows.{Obeys};
ghost use Rattle.lua_machine.specs.Loops.{held_value, AreBounds};

use crate::lists::again;
use crate::operators::{truth, worded};
use crate::state::{Flow, State, raise, raise_kind};
use lua_code::{Item, Slot};
use lua_values::Value;
use tl_base::{Bytes, CrossKind, Crossing, NoMemory, Pos};

/// Goes on there where the value on the stack is true.
#[inline(always)]
pub fn jump_if(place: Pos, to: u64, state: &mut State) -> Result<Flow, NoMemory>
    ensures { IfOk result (λ flow. Obeys (pop_value (λ v. jump_where (is_true v) to)) place state.old state.new flow) }
{
    let Some(Item::One(value)) = state.frames.pop() else {
        return Ok(Flow::Stuck);
    };
    if truth(&value) {
        state.frames.jump(to);
    } else {
        state.frames.advance()?;
    }
    Ok(Flow::On)
}

/// Goes on there where the value on the stack is false.
#[inline(always)]
pub fn jump_if_not(place: Pos, to: u64, state: &mut State) -> Result<Flow, NoMemory>
    ensures { IfOk result (λ flow. Obeys (pop_value (λ v. jump_where (not (is_true v)) to)) place state.old state.new flow) }
{
    let Some(Item::One(value)) = state.frames.pop() else {
        return Ok(Flow::Stuck);
    };
    if truth(&value) {
        state.frames.advance()?;
    } else {
        state.frames.jump(to);
    }
    Ok(Flow::On)
}

/// Goes on there with a true value on the stack, or drops a false one.
#[inline(always)]
pub fn keep_if(place: Pos, to: u64, state: &mut State) -> Result<Flow, NoMemory>
    ensures { IfOk result (λ flow. Obeys (pop_value (λ v. keep_where (is_true v) to v)) place state.old state.new flow) }
{
    let Some(Item::One(value)) = state.frames.pop() else {
        return Ok(Flow::Stuck);
    };
    if truth(&value) {
        state.frames.push(Item::One(value))?;
        state.frames.jump(to);
    } else {
        state.frames.advance()?;
    }
    Ok(Flow::On)
}

/// Goes on there with a false value on the stack, or drops a true one.
#[inline(always)]
pub fn keep_if_not(place: Pos, to: u64, state: &mut State) -> Result<Flow, NoMemory>
    ensures { IfOk result (λ flow. Obeys (pop_value (λ v. keep_where (not (is_true v)) to v)) place state.old state.new flow) }
{
    let Some(Item::One(value)) = state.frames.pop() else {
        return Ok(Flow::Stuck);
    };
    if truth(&value) {
        state.frames.advance()?;
    } else {
        state.frames.push(Item::One(value))?;
        state.frames.jump(to);
    }
    Ok(Flow::On)
}

/// The error of a loop's value, limit or step that is no integer.
#[inline(never)]
fn wrong_bound(place: Pos, value: Value, state: &mut State) -> Result<Flow, NoMemory>
    ensures { IfOk result (λ flow. Obeys (meant_wrong_bound value) place state.old state.new flow) }
{
    let what = worded(state.alloc, "'for' bound is a ", &value)?;
    raise_kind(place, what, state)
}

/// Whether a loop runs for a value.
#[inline(always)]
fn runs(step: i64, limit: i64, value: i64) -> bool
    ensures { result ≡ runs_for step limit value }
{
    if step >= 0 {
        value.cmp(&limit).is_le()
    } else {
        limit.cmp(&value).is_le()
    }
}

/// The next value of a loop, where it runs for that value.
#[inline(always)]
fn next_value(step: i64, limit: i64, value: i64) -> Option<i64>
    ensures { MatchOption result (runs_for step limit (value +ℤ step) ≡ false) (λ next. (next ≡ value +ℤ step) × (runs_for step limit next ≡ true)) }
{
    match value.checked_add(step) {
        Some(next) => {
            if runs(step, limit, next) {
                Some(next)
            } else {
                None
            }
        }
        None => None,
    }
}

/// The value of a slot, if it holds one.
#[inline(always)]
fn held(at: u64, state: &State) -> Result<Option<Value>, NoMemory>
    ensures { IfOk result (λ value. value ≡ held_value (slice_get state.now.frames.frame.slots at)) }
{
    match state.frames.slot(at) {
        Some(Slot::Held(value)) => Ok(Some(again(value)?)),
        _ => Ok(None),
    }
}

/// The value, the limit and the step of a loop.
#[derive(Drop)]
pub enum Bounds {
    Integers(i64, i64, i64),
    /// The first that is no integer.
    Wrong(Value),
    /// Not each of the slots holds a value.
    Missing,
}

/// The integers in three slots from one on.
#[inline(always)]
fn read_bounds(at: u64, state: &State) -> Result<Bounds, NoMemory>
    ensures { IfOk result (λ bounds. AreBounds bounds at state.now.frames.frame) }
{
    let second = at.checked_add(1).ok_or(NoMemory)?;
    let third = at.checked_add(2).ok_or(NoMemory)?;
    let Some(value) = held(at, state)? else {
        return Ok(Bounds::Missing);
    };
    let Some(limit) = held(second, state)? else {
        return Ok(Bounds::Missing);
    };
    let Some(step) = held(third, state)? else {
        return Ok(Bounds::Missing);
    };
    let Value::Int(first) = value else {
        return Ok(Bounds::Wrong(value));
    };
    let Value::Int(last) = limit else {
        return Ok(Bounds::Wrong(limit));
    };
    let Value::Int(stride) = step else {
        return Ok(Bounds::Wrong(step));
    };
    Ok(Bounds::Integers(first, last, stride))
}

/// Begins the loop of these slots, or goes behind it.
#[inline(always)]
pub fn for_prep(place: Pos, at: u64, to: u64, state: &mut State) -> Result<Flow, NoMemory>
    ensures { IfOk result (λ flow. Obeys (loop_slots at (λ n limit step. begin_loop to n limit step)) place state.old state.new flow) }
{
    match read_bounds(at, state)? {
        Bounds::Integers(value, limit, step) => {
            if step == 0 {
                let what = Bytes::from_slice(state.alloc, b"'for' step is zero")?;
                return raise(place, what, state);
            }
            if runs(step, limit, value) {
                state.frames.advance()?;
            } else {
                state.frames.jump(to);
            }
            Ok(Flow::On)
        }
        Bounds::Wrong(value) => wrong_bound(place, value, state),
        Bounds::Missing => Ok(Flow::Stuck),
    }
}

/// Steps the loop of these slots, and goes back for its next turn, or on.
#[inline(always)]
pub fn for_step(place: Pos, at: u64, to: u64, state: &mut State) -> Result<Flow, NoMemory>
    ensures { IfOk result (λ flow. Obeys (loop_slots at (λ n limit step. step_loop at to n limit step)) place state.old state.new flow) }
{
    match read_bounds(at, state)? {
        Bounds::Integers(value, limit, step) => {
            match next_value(step, limit, value) {
                Some(next) => {
                    state.frames.set_slot(at, Slot::Held(Value::Int(next)));
                    state.frames.jump(to);
                }
                None => state.frames.advance()?,
            }
            Ok(Flow::On)
        }
        Bounds::Wrong(value) => wrong_bound(place, value, state),
        Bounds::Missing => Ok(Flow::Stuck),
    }
}

/// The value on the stack has to be an integer.
#[inline(always)]
pub fn wanted_integer(place: Pos, state: &mut State) -> Result<Flow, NoMemory>
    ensures { IfOk result (λ flow. Obeys (pop_value (λ v. meant_bound v)) place state.old state.new flow) }
{
    let Some(Item::One(value)) = state.frames.pop() else {
        return Ok(Flow::Stuck);
    };
    match value {
        Value::Int(number) => {
            state.push_on(Item::One(Value::Int(number)))?;
            Ok(Flow::On)
        }
        _ => wrong_bound(place, value, state),
    }
}

/// Takes a turn, or ends the run where none is left.
#[inline(always)]
pub fn turn(place: Pos, state: &mut State) -> Result<Flow, NoMemory>
    ensures { IfOk result (λ flow. Obeys take_turn place state.old state.new flow) }
{
    if !state.store.take_turn() {
        return Ok(Flow::Spent);
    }
    state.frames.advance()?;
    Ok(Flow::On)
}

/// Passes a crossing.
#[inline(always)]
pub fn mark(
    place: Pos,
    kind: CrossKind,
    line: u32,
    column: u32,
    state: &mut State,
) -> Result<Flow, NoMemory>
    ensures { IfOk result (λ flow. Obeys (pass_at kind line column) place state.old state.new flow) }
{
    let pos = Pos {
        module: place.module,
        line,
        column,
    };
    state.store.pass(Crossing { pos, kind });
    state.frames.advance()?;
    Ok(Flow::On)
}
