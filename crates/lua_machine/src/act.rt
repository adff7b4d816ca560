ghost use Rattle.std.specs.Prelude.{◌≡◌, IfOk};
ghost use Rattle.lua_code.specs.Instructions.{act as meant};
ghost use Rattle.lua_meaning.specs.Trees.{library_value as meant_library};
ghost use Rattle.lua_machine.specs.Flows.{Obeys};

use crate::state::{Flow, State};
use crate::{jumps, lists, rows, sums};
use lua_code::{Instr, Item, Proto};
use lua_tree::{BinaryOperator, LibName, UnaryOperator};
use lua_values::{Text, Value};
use tl_base::{NoMemory, Pos};

/// Does an instruction at a place: those that run most often first.
#[inline(always)]
pub fn act(
    place: Pos,
    instr: &Instr,
    functions: &[Proto],
    state: &mut State,
) -> Result<Flow, NoMemory>
    ensures { IfOk result (λ flow. Obeys (meant functions.now instr.now) place state.old state.new flow) }
{
    match instr {
        Instr::GetSlot(at) => rows::get_slot(place, *at, state),
        Instr::SetSlot(at) => rows::set_slot(place, *at, state),
        Instr::GetCell(at) => rows::get_cell(place, *at, state),
        Instr::SetCell(at) => rows::set_cell(place, *at, state),
        Instr::GetUp(at) => rows::get_up(place, *at, state),
        Instr::Int(number) => {
            state.push_on(Item::One(Value::Int(*number)))?;
            Ok(Flow::On)
        }
        Instr::Add => sums::arithmetic(place, BinaryOperator::Add, state),
        Instr::Sub => sums::arithmetic(place, BinaryOperator::Subtract, state),
        Instr::Lt => sums::less(place, state),
        Instr::JumpIf(to) => jumps::jump_if(place, *to, state),
        Instr::JumpIfNot(to) => jumps::jump_if_not(place, *to, state),
        Instr::Turn => jumps::turn(place, state),
        Instr::Jump(to) => {
            state.frames.jump(*to);
            Ok(Flow::On)
        }
        Instr::ForStep(at, to) => jumps::for_step(place, *at, *to, state),
        Instr::Pack(count) => lists::pack(place, *count, state),
        Instr::First => lists::first(place, state),
        _ => act_often(place, instr, functions, state),
    }
}

/// Those that run less often.
#[inline(always)]
fn act_often(
    place: Pos,
    instr: &Instr,
    functions: &[Proto],
    state: &mut State,
) -> Result<Flow, NoMemory>
    ensures { IfOk result (λ flow. Obeys (meant functions.now instr.now) place state.old state.new flow) }
{
    match instr {
        Instr::SetUp(at) => rows::set_up(place, *at, state),
        Instr::NewCell(at) => rows::new_cell(place, *at, state),
        Instr::Mul => sums::arithmetic(place, BinaryOperator::Multiply, state),
        Instr::Le => sums::less_equal(place, state),
        Instr::Eq => sums::equal(place, state),
        Instr::Mark(kind, line, column) => jumps::mark(place, *kind, *line, *column, state),
        _ => act_on_words(place, instr, functions, state),
    }
}

/// Those on integers as words, and on one value.
#[inline(always)]
fn act_on_words(
    place: Pos,
    instr: &Instr,
    functions: &[Proto],
    state: &mut State,
) -> Result<Flow, NoMemory>
    ensures { IfOk result (λ flow. Obeys (meant functions.now instr.now) place state.old state.new flow) }
{
    match instr {
        Instr::IDiv => sums::arithmetic(place, BinaryOperator::Divide, state),
        Instr::Mod => sums::arithmetic(place, BinaryOperator::Modulo, state),
        Instr::BAnd => sums::bitwise(place, BinaryOperator::BitAnd, state),
        Instr::BOr => sums::bitwise(place, BinaryOperator::BitOr, state),
        Instr::BXor => sums::bitwise(place, BinaryOperator::BitXor, state),
        Instr::Shl => sums::bitwise(place, BinaryOperator::ShiftLeft, state),
        Instr::Shr => sums::bitwise(place, BinaryOperator::ShiftRight, state),
        Instr::Neg => sums::before(place, UnaryOperator::Negate, state),
        Instr::BNot => sums::before(place, UnaryOperator::BitNot, state),
        Instr::Len => sums::before(place, UnaryOperator::Length, state),
        Instr::Not => sums::before(place, UnaryOperator::Not, state),
        Instr::Concat => sums::concatenate(place, state),
        _ => act_on_values(place, instr, functions, state),
    }
}

/// A library's name as a value.
#[inline(always)]
fn library_value(name: LibName) -> Value
    ensures { result ≡ meant_library name }
{
    match name {
        LibName::MathMaxInteger => Value::Int(i64::MAX),
        LibName::MathMinInteger => Value::Int(i64::MIN),
        _ => Value::Builtin(name),
    }
}

/// Those that put values on the stack, or take them.
#[inline(always)]
fn act_on_values(
    place: Pos,
    instr: &Instr,
    functions: &[Proto],
    state: &mut State,
) -> Result<Flow, NoMemory>
    ensures { IfOk result (λ flow. Obeys (meant functions.now instr.now) place state.old state.new flow) }
{
    match instr {
        Instr::Nil => {
            state.push_on(Item::One(Value::Nil))?;
            Ok(Flow::On)
        }
        Instr::True => {
            state.push_on(Item::One(Value::Bool(true)))?;
            Ok(Flow::On)
        }
        Instr::False => {
            state.push_on(Item::One(Value::Bool(false)))?;
            Ok(Flow::On)
        }
        Instr::Str(bytes) => {
            let text = Text::new(state.alloc, bytes.as_slice())?;
            state.push_on(Item::One(Value::Str(text)))?;
            Ok(Flow::On)
        }
        Instr::Lib(name) => {
            state.push_on(Item::One(library_value(*name)))?;
            Ok(Flow::On)
        }
        Instr::Cons(count) => lists::cons(place, *count, state),
        Instr::Spread(count) => lists::spread(place, *count, state),
        Instr::Dup => lists::dup(place, state),
        Instr::Pop => rows::pop(place, state),
        Instr::Rest => lists::rest(place, state),
        _ => act_seldom(place, instr, functions, state),
    }
}

/// All others. Those on tables, methods and modules are still to come: until then no code with them is well formed.
#[inline(always)]
fn act_seldom(
    place: Pos,
    instr: &Instr,
    functions: &[Proto],
    state: &mut State,
) -> Result<Flow, NoMemory>
    ensures { IfOk result (λ flow. Obeys (meant functions.now instr.now) place state.old state.new flow) }
{
    match instr {
        Instr::Closure(number) => lists::close(place, functions, *number, state),
        Instr::KeepIf(to) => jumps::keep_if(place, *to, state),
        Instr::KeepIfNot(to) => jumps::keep_if_not(place, *to, state),
        Instr::ForPrep(at, to) => jumps::for_prep(place, *at, *to, state),
        Instr::Bound => jumps::wanted_integer(place, state),
        Instr::Method(_)
        | Instr::Require(_)
        | Instr::NewTable
        | Instr::Entry
        | Instr::Append(_)
        | Instr::Get
        | Instr::Put => Ok(Flow::Stuck),
        // taken before, and those that call or leave a function
        _ => Err(NoMemory),
    }
}
