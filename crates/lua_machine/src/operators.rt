ghost use Rattle.std.specs.Prelude.{◌≡◌, ◌++◌, codes, IfSome, IfOk, OnOk};
ghost use Rattle.lua_tree.specs.declared.syntax.BinaryOperator.TheVariants.{Concat, Less, LessEqual};
ghost use Rattle.lua_values.specs.declared.value.Value.TheVariants.{Int};
ghost use Rattle.lua_meaning.specs.Operators.{value_is, kind_name, is_true, compute, integer_or, on_integers, text_in, joined as meant_joined, arithmetic as meant_arithmetic, bitwise as meant_bitwise, operate as meant, operate_on};
ghost use Rattle.lua_machine.specs.Answers.{answer_of, first_wrong};

use lua_tree::{BinaryOperator, UnaryOperator};
use lua_values::{
    Text, Value, add, band, bnot, bor, bxor, idiv, integer_text, modulo, mul, neg, shl, shr, sub,
};
use std::alloc::Global;
use tl_base::{Bytes, NoMemory};

/// A string's greatest length in bytes.
const LONGEST: usize = 16777216;

/// What an operator answers: a value, or the words of an error of kinds, or of another error.
#[derive(Drop)]
pub enum Answered {
    Value(Value),
    WrongKind(Bytes),
    Fails(Bytes),
}

/// The name of a value's kind.
pub fn kind_of(value: &Value) -> &'static str
    ensures { result.now ≡ kind_name value.now }
{
    match value {
        Value::Nil => "nil",
        Value::Bool(_) => "boolean",
        Value::Int(_) => "number",
        Value::Str(_) => "string",
        Value::Table(_) => "table",
        Value::Closure(_) => "function",
        Value::Builtin(_) => "function",
    }
}

/// Whether a value counts as true.
#[inline(always)]
pub fn truth(value: &Value) -> bool
    ensures { result ≡ is_true value.now }
{
    match value {
        Value::Nil => false,
        Value::Bool(truth) => *truth,
        _ => true,
    }
}

/// Words with the kind of a value behind them.
pub fn worded(alloc: Global, what: &str, value: &Value) -> Result<Bytes, NoMemory>
    ensures { IfOk result (λ text. text ≡ what.now ++ kind_name value.now) }
{
    let mut text = Bytes::from_slice(alloc, what.as_bytes())?;
    text.extend(kind_of(value).as_bytes())?;
    Ok(text)
}

/// Plain words.
fn plain(alloc: Global, what: &str) -> Result<Bytes, NoMemory>
    ensures { IfOk result (λ text. text ≡ what.now) }
{
    Bytes::from_slice(alloc, what.as_bytes())
}

/// A result, or the words of an error where there is none.
#[inline(always)]
fn quotient(alloc: Global, what: &str, number: Option<i64>) -> Result<Answered, NoMemory>
    ensures { IfOk result (λ a. answer_of a ≡ integer_or what.now number) }
{
    match number {
        Some(number) => Ok(Answered::Value(Value::Int(number))),
        None => Ok(Answered::Fails(plain(alloc, what)?)),
    }
}

/// An operator on two integers.
#[inline(always)]
fn computed(alloc: Global, operator: BinaryOperator, m: i64, n: i64) -> Result<Answered, NoMemory>
    ensures { IfOk result (λ a. answer_of a ≡ compute operator m n) }
{
    let number = match operator {
        BinaryOperator::Add => add(m, n),
        BinaryOperator::Subtract => sub(m, n),
        BinaryOperator::Multiply => mul(m, n),
        BinaryOperator::BitAnd => band(m, n),
        BinaryOperator::BitOr => bor(m, n),
        BinaryOperator::BitXor => bxor(m, n),
        BinaryOperator::ShiftLeft => shl(m, n),
        BinaryOperator::ShiftRight => shr(m, n),
        BinaryOperator::Divide => return quotient(alloc, "division by zero", idiv(m, n)),
        BinaryOperator::Modulo => return quotient(alloc, "modulo by zero", modulo(m, n)),
        _ => return Ok(Answered::Value(Value::Nil)),
    };
    Ok(Answered::Value(Value::Int(number)))
}

/// The result of an operator on two integers, where it is one that can't fail.
#[inline(always)]
pub fn quick(operator: BinaryOperator, m: i64, n: i64) -> Option<i64>
    ensures { IfSome result (λ number. compute operator m n ≡ value_is (Int number)) }
{
    match operator {
        BinaryOperator::Add => Some(add(m, n)),
        BinaryOperator::Subtract => Some(sub(m, n)),
        BinaryOperator::Multiply => Some(mul(m, n)),
        BinaryOperator::BitAnd => Some(band(m, n)),
        BinaryOperator::BitOr => Some(bor(m, n)),
        BinaryOperator::BitXor => Some(bxor(m, n)),
        BinaryOperator::ShiftLeft => Some(shl(m, n)),
        BinaryOperator::ShiftRight => Some(shr(m, n)),
        _ => None,
    }
}

/// The error of the first of two values that is no integer.
#[inline(never)]
fn no_integers(alloc: Global, what: &str, u: &Value, v: &Value) -> Result<Bytes, NoMemory>
    ensures { IfOk result (λ text. text ≡ what.now ++ first_wrong u.now v.now) }
{
    match u {
        Value::Int(_) => worded(alloc, what, v),
        _ => worded(alloc, what, u),
    }
}

/// An operator that wants two integers.
#[inline(always)]
fn integers(
    alloc: Global,
    operator: BinaryOperator,
    what: &str,
    u: &Value,
    v: &Value,
) -> Result<Answered, NoMemory>
    ensures { IfOk result (λ a. answer_of a ≡ on_integers operator what.now u.now v.now) }
{
    match (u, v) {
        (Value::Int(m), Value::Int(n)) => computed(alloc, operator, *m, *n),
        _ => Ok(Answered::WrongKind(no_integers(alloc, what, u, v)?)),
    }
}

/// The text that `..` takes of a value, if it takes one.
fn text_of(alloc: Global, value: &Value) -> Result<Option<Text>, NoMemory>
    ensures { IfOk result (λ text. text ≡ text_in value.now) }
{
    match value {
        Value::Int(number) => Ok(Some(integer_text(alloc, *number)?)),
        Value::Str(text) => Ok(Some(text.share()?)),
        _ => Ok(None),
    }
}

/// Two texts as one, which must not be too long.
fn joined(alloc: Global, s: &Text, t: &Text) -> Result<Answered, NoMemory>
    ensures { IfOk result (λ a. answer_of a ≡ meant_joined (s.now ++ t.now)) }
{
    let mut text = Bytes::from_slice(alloc, s.bytes())?;
    text.extend(t.bytes())?;
    if text.len() > LONGEST {
        return Ok(Answered::Fails(plain(alloc, "string too long")?));
    }
    Ok(Answered::Value(Value::Str(Text::new(alloc, text.as_slice())?)))
}

/// `u .. v`.
#[inline(never)]
pub fn concatenated(alloc: Global, u: &Value, v: &Value) -> Result<Answered, NoMemory>
    ensures { IfOk result (λ a. answer_of a ≡ meant Concat u.now v.now) }
{
    let Some(s) = text_of(alloc, u)? else {
        return Ok(Answered::WrongKind(worded(alloc, "concatenation of a ", u)?));
    };
    let Some(t) = text_of(alloc, v)? else {
        return Ok(Answered::WrongKind(worded(alloc, "concatenation of a ", v)?));
    };
    joined(alloc, &s, &t)
}

/// The words for two values that can't be compared.
#[inline(never)]
fn no_order(alloc: Global, u: &Value, v: &Value) -> Result<Bytes, NoMemory>
    ensures { IfOk result (λ text. text ≡ codes "comparison of a " ++ kind_name u.now ++ codes " with a " ++ kind_name v.now) }
{
    let mut text = worded(alloc, "comparison of a ", u)?;
    text.extend(b" with a ")?;
    text.extend(kind_of(v).as_bytes())?;
    Ok(text)
}

/// `u < v`.
#[inline(always)]
pub fn less(alloc: Global, u: &Value, v: &Value) -> Result<Answered, NoMemory>
    ensures { IfOk result (λ a. answer_of a ≡ meant Less u.now v.now) }
{
    match (u, v) {
        (Value::Int(m), Value::Int(n)) => Ok(Answered::Value(Value::Bool(m.cmp(n).is_lt()))),
        (Value::Str(s), Value::Str(t)) => {
            Ok(Answered::Value(Value::Bool(s.bytes().cmp(t.bytes()).is_lt())))
        }
        _ => Ok(Answered::WrongKind(no_order(alloc, u, v)?)),
    }
}

/// `u <= v`.
#[inline(always)]
pub fn less_equal(alloc: Global, u: &Value, v: &Value) -> Result<Answered, NoMemory>
    ensures { IfOk result (λ a. answer_of a ≡ meant LessEqual u.now v.now) }
{
    match (u, v) {
        (Value::Int(m), Value::Int(n)) => Ok(Answered::Value(Value::Bool(m.cmp(n).is_le()))),
        (Value::Str(s), Value::Str(t)) => {
            Ok(Answered::Value(Value::Bool(s.bytes().cmp(t.bytes()).is_le())))
        }
        _ => Ok(Answered::WrongKind(no_order(alloc, u, v)?)),
    }
}

/// Arithmetic on two values.
#[inline(always)]
pub fn arithmetic(
    alloc: Global,
    operator: BinaryOperator,
    u: &Value,
    v: &Value,
) -> Result<Answered, NoMemory>
    ensures { IfOk result (λ a. answer_of a ≡ meant_arithmetic operator u.now v.now) }
{
    integers(alloc, operator, "arithmetic on a ", u, v)
}

/// A bitwise operation on two values.
#[inline(always)]
pub fn bitwise(
    alloc: Global,
    operator: BinaryOperator,
    u: &Value,
    v: &Value,
) -> Result<Answered, NoMemory>
    ensures { IfOk result (λ a. answer_of a ≡ meant_bitwise operator u.now v.now) }
{
    integers(alloc, operator, "bitwise operation on a ", u, v)
}

/// An operator before its operand.
#[inline(always)]
pub fn before(alloc: Global, operator: UnaryOperator, v: &Value) -> Result<Answered, NoMemory>
    ensures { IfOk result (λ a. answer_of a ≡ operate_on operator v.now) }
{
    match (operator, v) {
        (UnaryOperator::Not, _) => Ok(Answered::Value(Value::Bool(!truth(v)))),
        (UnaryOperator::Negate, Value::Int(n)) => Ok(Answered::Value(Value::Int(neg(*n)))),
        (UnaryOperator::Negate, _) => {
            Ok(Answered::WrongKind(worded(alloc, "arithmetic on a ", v)?))
        }
        (UnaryOperator::BitNot, Value::Int(n)) => Ok(Answered::Value(Value::Int(bnot(*n)))),
        (UnaryOperator::BitNot, _) => {
            Ok(Answered::WrongKind(worded(alloc, "bitwise operation on a ", v)?))
        }
        (UnaryOperator::Length, Value::Str(text)) => {
            Ok(Answered::Value(Value::Int(text.bytes().len() as i64)))
        }
        (UnaryOperator::Length, Value::Table(_)) => Ok(Answered::Value(Value::Int(0))),
        (UnaryOperator::Length, _) => Ok(Answered::WrongKind(worded(alloc, "length of a ", v)?)),
    }
}
