ghost use Rattle.std.specs.Prelude.{◌≡◌, ◌<◌, ◌/◌, ◌%◌, ◌++◌, length, flat_map, decimal, codes, IsSome, IfSome, IfOk, OnOk};
ghost use Rattle.std.specs.Fmt.{signed_decimal};
ghost use Rattle.std.specs.Char.{digit_char};
ghost use Rattle.lua_code.specs.Listings.{name_of, arguments_of, hex_byte, hex_text, spaced, line_of, lines_from, flag, heading_of, function_lines, functions_from, listing_of, instruction_at};

use crate::{Code, Instr, Proto};
use itoa::Buffer;
use lua_tree::lib_text;
use std::alloc::Global;
use tl_base::{Bytes, NoMemory};

impl Instr {
    /// The instruction's name.
    fn name(&self) -> &'static str
        ensures { result.now ≡ name_of self.now }
    {
        match self {
            Instr::Nil => "Nil",
            Instr::True => "True",
            Instr::False => "False",
            Instr::Int(_) => "Int",
            Instr::Str(_) => "Str",
            Instr::Lib(_) => "Lib",
            Instr::GetSlot(_) => "GetSlot",
            Instr::SetSlot(_) => "SetSlot",
            Instr::NewCell(_) => "NewCell",
            Instr::GetCell(_) => "GetCell",
            Instr::SetCell(_) => "SetCell",
            Instr::GetUp(_) => "GetUp",
            Instr::SetUp(_) => "SetUp",
            Instr::Closure(_) => "Closure",
            Instr::Rest => "Rest",
            Instr::Pack(_) => "Pack",
            Instr::Cons(_) => "Cons",
            Instr::First => "First",
            Instr::Spread(_) => "Spread",
            Instr::Dup => "Dup",
            Instr::Pop => "Pop",
            Instr::Call => "Call",
            Instr::Method(_) => "Method",
            Instr::Return => "Return",
            Instr::Require(_) => "Require",
            Instr::NewTable => "NewTable",
            Instr::Entry => "Entry",
            Instr::Append(_) => "Append",
            Instr::Get => "Get",
            Instr::Put => "Put",
            Instr::Add => "Add",
            Instr::Sub => "Sub",
            Instr::Mul => "Mul",
            Instr::IDiv => "IDiv",
            Instr::Mod => "Mod",
            Instr::BAnd => "BAnd",
            Instr::BOr => "BOr",
            Instr::BXor => "BXor",
            Instr::Shl => "Shl",
            Instr::Shr => "Shr",
            Instr::Concat => "Concat",
            Instr::Eq => "Eq",
            Instr::Lt => "Lt",
            Instr::Le => "Le",
            Instr::Neg => "Neg",
            Instr::BNot => "BNot",
            Instr::Len => "Len",
            Instr::Not => "Not",
            Instr::Jump(_) => "Jump",
            Instr::JumpIf(_) => "JumpIf",
            Instr::JumpIfNot(_) => "JumpIfNot",
            Instr::KeepIf(_) => "KeepIf",
            Instr::KeepIfNot(_) => "KeepIfNot",
            Instr::ForPrep(_, _) => "ForPrep",
            Instr::ForStep(_, _) => "ForStep",
            Instr::Bound => "Bound",
            Instr::Turn => "Turn",
            Instr::Mark(_, _, _) => "Mark",
        }
    }
}

/// Puts a number behind a text.
fn push_number(to: &mut Bytes, number: u64) -> Result<(), NoMemory>
    ensures { OnOk result (to.new ≡ to.old ++ decimal number) }
{
    let mut buffer = Buffer::new();
    to.extend(buffer.format(number).as_bytes())
}

/// Puts a number behind a text, with a space before it.
fn push_argument(to: &mut Bytes, number: u64) -> Result<(), NoMemory>
    ensures { OnOk result (to.new ≡ to.old ++ codes " " ++ decimal number) }
{
    to.extend(b" ")?;
    push_number(to, number)
}

fn push_integer(to: &mut Bytes, number: i64) -> Result<(), NoMemory>
    ensures { OnOk result (to.new ≡ to.old ++ codes " " ++ signed_decimal number) }
{
    let mut buffer = Buffer::new();
    to.extend(b" ")?;
    to.extend(buffer.format(number).as_bytes())
}

fn hex_digit(value: u8) -> u8
    requires { value < 16 }
    ensures { result ≡ digit_char value }
{
    if value < 10 { 48 + value } else { 87 + value }
}

/// Puts a string behind a text, each byte as two hexadecimal digits.
fn push_hex(to: &mut Bytes, bytes: &[u8]) -> Result<(), NoMemory>
    ensures { OnOk result (to.new ≡ to.old ++ hex_text bytes.now) }
{
    for byte in bytes {
        to.push(hex_digit(*byte / 16))?;
        to.push(hex_digit(*byte % 16))?;
    }
    Ok(())
}

/// Puts the arguments of an instruction behind a text, with a space before each.
fn push_arguments(alloc: Global, to: &mut Bytes, instr: &Instr) -> Result<(), NoMemory>
    ensures { OnOk result (to.new ≡ to.old ++ spaced (arguments_of instr.now)) }
{
    match instr {
        Instr::Int(number) => push_integer(to, *number),
        Instr::Str(bytes) | Instr::Method(bytes) => {
            to.extend(b" ")?;
            push_hex(to, bytes.as_slice())
        }
        Instr::Lib(name) => {
            let text = lib_text(alloc, *name)?;
            to.extend(b" ")?;
            to.extend(text.as_slice())
        }
        Instr::GetSlot(number)
        | Instr::SetSlot(number)
        | Instr::NewCell(number)
        | Instr::GetCell(number)
        | Instr::SetCell(number)
        | Instr::GetUp(number)
        | Instr::SetUp(number)
        | Instr::Closure(number)
        | Instr::Pack(number)
        | Instr::Cons(number)
        | Instr::Spread(number)
        | Instr::Require(number)
        | Instr::Append(number)
        | Instr::Jump(number)
        | Instr::JumpIf(number)
        | Instr::JumpIfNot(number)
        | Instr::KeepIf(number)
        | Instr::KeepIfNot(number) => push_argument(to, *number),
        Instr::ForPrep(slot, to_there) | Instr::ForStep(slot, to_there) => {
            push_argument(to, *slot)?;
            push_argument(to, *to_there)
        }
        Instr::Mark(kind, line, column) => {
            to.extend(b" ")?;
            to.extend(kind.name().as_bytes())?;
            push_argument(to, *line as u64)?;
            push_argument(to, *column as u64)
        }
        _ => Ok(()),
    }
}

/// Puts an instruction's line behind a text, without a line end.
fn push_line(
    alloc: Global,
    to: &mut Bytes,
    function: u64,
    at: u64,
    instr: &Instr,
) -> Result<(), NoMemory>
    ensures { OnOk result (to.new ≡ to.old ++ line_of function at instr.now) }
{
    push_number(to, function)?;
    to.extend(b":")?;
    push_number(to, at)?;
    to.extend(b" ")?;
    to.extend(instr.name().as_bytes())?;
    push_arguments(alloc, to, instr)
}

/// Puts the line that tells of a function behind a text, without a line end.
fn push_heading(to: &mut Bytes, function: u64, proto: &Proto) -> Result<(), NoMemory>
    ensures { OnOk result (to.new ≡ to.old ++ heading_of function proto.now) }
{
    to.extend(b"function ")?;
    push_number(to, function)?;
    to.extend(b" params ")?;
    push_number(to, proto.params)?;
    to.extend(b" vararg ")?;
    to.extend(if proto.vararg { b"1" } else { b"0" })?;
    to.extend(b" slots ")?;
    push_number(to, proto.slots)?;
    to.extend(b" captures ")?;
    push_number(to, proto.captures.len() as u64)
}

/// Puts a function's line and those of its instructions behind a text.
fn push_function(
    alloc: Global,
    to: &mut Bytes,
    function: u64,
    proto: &Proto,
) -> Result<(), NoMemory>
    ensures { OnOk result (to.new ≡ to.old ++ function_lines function proto.now) }
{
    push_heading(to, function, proto)?;
    to.extend(b"\n")?;
    let mut at: u64 = 0;
    for instr in proto.code.as_slice() {
        push_line(alloc, to, function, at, instr)?;
        to.extend(b"\n")?;
        at = at.checked_add(1).ok_or(NoMemory)?;
    }
    Ok(())
}

/// The code as text: for each function in order its numbers, and then its instructions, a line each.
pub fn listing(alloc: Global, code: &Code) -> Result<Bytes, NoMemory>
    ensures { IfOk result (λ text. text ≡ listing_of code.now) }
{
    let mut text = Bytes::new(alloc);
    let mut function: u64 = 0;
    for proto in code.functions.as_slice() {
        push_function(alloc, &mut text, function, proto)?;
        function = function.checked_add(1).ok_or(NoMemory)?;
    }
    Ok(text)
}

/// One instruction's line, without a line end. The functions and their instructions are numbered from 0.
pub fn line(alloc: Global, code: &Code, function: u64, at: u64) -> Result<Bytes, NoMemory>
    requires { IsSome (instruction_at code.now function at) }
    ensures { IfOk result (λ text. IfSome (instruction_at code.now function at) (λ i. text ≡ line_of function at i)) }
{
    let mut text = Bytes::new(alloc);
    if let Some(proto) = code.functions.get(function as usize) {
        if let Some(instr) = proto.code.get(at as usize) {
            push_line(alloc, &mut text, function, at, instr)?;
        }
    }
    Ok(text)
}
