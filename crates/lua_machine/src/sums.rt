ghost use Rattle.std.specs.Prelude.{◌≡◌, IfOk};
ghost use Rattle.lua_meaning.specs.Operators.{arithmetic as meant_arithmetic, bitwise as meant_bitwise, operate};
ghost use Rattle.lua_tree.specs.declared.syntax.BinaryOperator.TheVariants as binary;
ghost use Rattle.lua_code.specs.Instructions.{pop_value, answered, two, one};
ghost use Rattle.lua_machine.specs.Flows.{Obeys};

use crate::operators;
use crate::state::{Flow, State, answer};
use lua_code::Item;
use lua_tree::{BinaryOperator, UnaryOperator};
use lua_values::Value;
use tl_base::{NoMemory, Pos};

/// Arithmetic on the two values on the stack.
#[inline(always)]
pub fn arithmetic(place: Pos, operator: BinaryOperator, state: &mut State) -> Result<Flow, NoMemory>
    ensures { IfOk result (λ flow. Obeys (pop_value (λ y. pop_value (λ x. answered (meant_arithmetic operator x y)))) place state.old state.new flow) }
{
    let Some(Item::One(y)) = state.frames.pop() else {
        return Ok(Flow::Stuck);
    };
    let Some(Item::One(x)) = state.frames.pop() else {
        return Ok(Flow::Stuck);
    };
    if let (Value::Int(m), Value::Int(n)) = (&x, &y) {
        if let Some(number) = operators::quick(operator, *m, *n) {
            state.push_on(Item::One(Value::Int(number)))?;
            return Ok(Flow::On);
        }
    }
    arithmetic_on(place, operator, x, y, state)
}

/// The same on any two values.
#[inline(never)]
fn arithmetic_on(
    place: Pos,
    operator: BinaryOperator,
    x: Value,
    y: Value,
    state: &mut State,
) -> Result<Flow, NoMemory>
    ensures { IfOk result (λ flow. Obeys (answered (meant_arithmetic operator x y)) place state.old state.new flow) }
{
    let answered = operators::arithmetic(state.alloc, operator, &x, &y)?;
    answer(place, answered, state)
}

/// A bitwise operation on the two values on the stack.
#[inline(always)]
pub fn bitwise(place: Pos, operator: BinaryOperator, state: &mut State) -> Result<Flow, NoMemory>
    ensures { IfOk result (λ flow. Obeys (pop_value (λ y. pop_value (λ x. answered (meant_bitwise operator x y)))) place state.old state.new flow) }
{
    let Some(Item::One(y)) = state.frames.pop() else {
        return Ok(Flow::Stuck);
    };
    let Some(Item::One(x)) = state.frames.pop() else {
        return Ok(Flow::Stuck);
    };
    if let (Value::Int(m), Value::Int(n)) = (&x, &y) {
        if let Some(number) = operators::quick(operator, *m, *n) {
            state.push_on(Item::One(Value::Int(number)))?;
            return Ok(Flow::On);
        }
    }
    bitwise_on(place, operator, x, y, state)
}

/// The same on any two values.
#[inline(never)]
fn bitwise_on(
    place: Pos,
    operator: BinaryOperator,
    x: Value,
    y: Value,
    state: &mut State,
) -> Result<Flow, NoMemory>
    ensures { IfOk result (λ flow. Obeys (answered (meant_bitwise operator x y)) place state.old state.new flow) }
{
    let answered = operators::bitwise(state.alloc, operator, &x, &y)?;
    answer(place, answered, state)
}

/// `x .. y`.
#[inline(never)]
pub fn concatenate(place: Pos, state: &mut State) -> Result<Flow, NoMemory>
    ensures { IfOk result (λ flow. Obeys (two binary.Concat) place state.old state.new flow) }
{
    let Some(Item::One(y)) = state.frames.pop() else {
        return Ok(Flow::Stuck);
    };
    let Some(Item::One(x)) = state.frames.pop() else {
        return Ok(Flow::Stuck);
    };
    let answered = operators::concatenated(state.alloc, &x, &y)?;
    answer(place, answered, state)
}

/// `x == y`.
#[inline(always)]
pub fn equal(place: Pos, state: &mut State) -> Result<Flow, NoMemory>
    ensures { IfOk result (λ flow. Obeys (two binary.Equal) place state.old state.new flow) }
{
    let Some(Item::One(y)) = state.frames.pop() else {
        return Ok(Flow::Stuck);
    };
    let Some(Item::One(x)) = state.frames.pop() else {
        return Ok(Flow::Stuck);
    };
    state.push_on(Item::One(Value::Bool(x == y)))?;
    Ok(Flow::On)
}

/// `x < y`.
#[inline(always)]
pub fn less(place: Pos, state: &mut State) -> Result<Flow, NoMemory>
    ensures { IfOk result (λ flow. Obeys (two binary.Less) place state.old state.new flow) }
{
    let Some(Item::One(y)) = state.frames.pop() else {
        return Ok(Flow::Stuck);
    };
    let Some(Item::One(x)) = state.frames.pop() else {
        return Ok(Flow::Stuck);
    };
    if let (Value::Int(m), Value::Int(n)) = (&x, &y) {
        state.push_on(Item::One(Value::Bool(m.cmp(n).is_lt())))?;
        return Ok(Flow::On);
    }
    less_on(place, x, y, state)
}

/// The same on any two values.
#[inline(never)]
fn less_on(place: Pos, x: Value, y: Value, state: &mut State) -> Result<Flow, NoMemory>
    ensures { IfOk result (λ flow. Obeys (answered (operate binary.Less x y)) place state.old state.new flow) }
{
    let answered = operators::less(state.alloc, &x, &y)?;
    answer(place, answered, state)
}

/// `x <= y`.
#[inline(always)]
pub fn less_equal(place: Pos, state: &mut State) -> Result<Flow, NoMemory>
    ensures { IfOk result (λ flow. Obeys (two binary.LessEqual) place state.old state.new flow) }
{
    let Some(Item::One(y)) = state.frames.pop() else {
        return Ok(Flow::Stuck);
    };
    let Some(Item::One(x)) = state.frames.pop() else {
        return Ok(Flow::Stuck);
    };
    if let (Value::Int(m), Value::Int(n)) = (&x, &y) {
        state.push_on(Item::One(Value::Bool(m.cmp(n).is_le())))?;
        return Ok(Flow::On);
    }
    less_equal_on(place, x, y, state)
}

/// The same on any two values.
#[inline(never)]
fn less_equal_on(place: Pos, x: Value, y: Value, state: &mut State) -> Result<Flow, NoMemory>
    ensures { IfOk result (λ flow. Obeys (answered (operate binary.LessEqual x y)) place state.old state.new flow) }
{
    let answered = operators::less_equal(state.alloc, &x, &y)?;
    answer(place, answered, state)
}

/// An operator before the value on the stack.
#[inline(never)]
pub fn before(place: Pos, operator: UnaryOperator, state: &mut State) -> Result<Flow, NoMemory>
    ensures { IfOk result (λ flow. Obeys (one operator) place state.old state.new flow) }
{
    let Some(Item::One(x)) = state.frames.pop() else {
        return Ok(Flow::Stuck);
    };
    let answered = operators::before(state.alloc, operator, &x)?;
    answer(place, answered, state)
}
