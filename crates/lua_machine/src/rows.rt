ghost use Rattle.std.specs.Prelude.{◌≡◌, not, IfOk};
ghost use Rattle.lua_values.specs.declared.value.Value.{Value as Held};
ghost use Rattle.lua_code.specs.declared.frames.Slot.TheVariants as slot;
ghost use Rattle.lua_code.specs.Instructions.{from_slot, slot_cell, captured_cell, pop_value, push_value, set_slot as meant_set_slot, new_cell as meant_new_cell, read, write, dup as meant_dup, drop_top};
ghost use Rattle.lua_machine.specs.Flows.{Obeys};

use crate::lists::again;
use crate::state::{Flow, State};
use lua_code::{Item, Slot};
use lua_values::Value;
use tl_base::{NoMemory, Pos};

/// Puts a slot's value on the stack.
#[inline(always)]
pub fn get_slot(place: Pos, at: u64, state: &mut State) -> Result<Flow, NoMemory>
    ensures { IfOk result (λ flow. Obeys (from_slot at (λ v. push_value v)) place state.old state.new flow) }
{
    let value = match state.frames.slot(at) {
        Some(Slot::Held(value)) => again(value)?,
        _ => return Ok(Flow::Stuck),
    };
    state.push_on(Item::One(value))?;
    Ok(Flow::On)
}

/// Puts the value on the stack into a slot.
#[inline(always)]
pub fn set_slot(place: Pos, at: u64, state: &mut State) -> Result<Flow, NoMemory>
    ensures { IfOk result (λ flow. Obeys (pop_value (λ v. meant_set_slot at (slot.Held v))) place state.old state.new flow) }
{
    let Some(Item::One(value)) = state.frames.pop() else {
        return Ok(Flow::Stuck);
    };
    state.frames.set_slot(at, Slot::Held(value));
    state.frames.advance()?;
    Ok(Flow::On)
}

/// Puts a slot's value into a cell of its own, which the slot then holds.
#[inline(always)]
pub fn new_cell(place: Pos, at: u64, state: &mut State) -> Result<Flow, NoMemory>
    ensures { IfOk result (λ flow. Obeys (from_slot at (λ v. meant_new_cell at v)) place state.old state.new flow) }
{
    let value = match state.frames.slot(at) {
        Some(Slot::Held(value)) => again(value)?,
        _ => return Ok(Flow::Stuck),
    };
    let cell = state.store.add(value)?;
    state.frames.set_slot(at, Slot::Cell(cell));
    state.frames.advance()?;
    Ok(Flow::On)
}

/// Puts the value of a slot's cell on the stack.
#[inline(always)]
pub fn get_cell(place: Pos, at: u64, state: &mut State) -> Result<Flow, NoMemory>
    ensures { IfOk result (λ flow. Obeys (slot_cell at (λ c. read c)) place state.old state.new flow) }
{
    let cell = match state.frames.slot(at) {
        Some(Slot::Cell(cell)) => *cell,
        _ => return Ok(Flow::Stuck),
    };
    let value = state.store.read(cell)?;
    state.push_on(Item::One(value))?;
    Ok(Flow::On)
}

/// Puts the value on the stack into a slot's cell.
#[inline(always)]
pub fn set_cell(place: Pos, at: u64, state: &mut State) -> Result<Flow, NoMemory>
    ensures { IfOk result (λ flow. Obeys (pop_value (λ v. slot_cell at (λ c. write c v))) place state.old state.new flow) }
{
    let Some(Item::One(value)) = state.frames.pop() else {
        return Ok(Flow::Stuck);
    };
    let cell = match state.frames.slot(at) {
        Some(Slot::Cell(cell)) => *cell,
        _ => return Ok(Flow::Stuck),
    };
    state.store.write(cell, value);
    state.frames.advance()?;
    Ok(Flow::On)
}

/// Puts the value of a captured cell on the stack.
#[inline(always)]
pub fn get_up(place: Pos, at: u64, state: &mut State) -> Result<Flow, NoMemory>
    ensures { IfOk result (λ flow. Obeys (captured_cell at (λ c. read c)) place state.old state.new flow) }
{
    let Some(cell) = state.frames.captured(at) else {
        return Ok(Flow::Stuck);
    };
    let value = state.store.read(cell)?;
    state.push_on(Item::One(value))?;
    Ok(Flow::On)
}

/// Puts the value on the stack into a captured cell.
#[inline(always)]
pub fn set_up(place: Pos, at: u64, state: &mut State) -> Result<Flow, NoMemory>
    ensures { IfOk result (λ flow. Obeys (pop_value (λ v. captured_cell at (λ c. write c v))) place state.old state.new flow) }
{
    let Some(Item::One(value)) = state.frames.pop() else {
        return Ok(Flow::Stuck);
    };
    let Some(cell) = state.frames.captured(at) else {
        return Ok(Flow::Stuck);
    };
    state.store.write(cell, value);
    state.frames.advance()?;
    Ok(Flow::On)
}

/// Drops the top of the stack.
#[inline(always)]
pub fn pop(place: Pos, state: &mut State) -> Result<Flow, NoMemory>
    ensures { IfOk result (λ flow. Obeys drop_top place state.old state.new flow) }
{
    if state.frames.pop().is_none() {
        return Ok(Flow::Stuck);
    }
    state.frames.advance()?;
    Ok(Flow::On)
}
