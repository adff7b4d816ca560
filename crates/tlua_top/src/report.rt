ghost use Rattle.std.specs.Prelude.{◌≡◌, ◌<◌, ◌++◌, flat_map, decimal, IfOk, OnOk};
ghost use Rattle.lua_machine.specs.World.{kind_error_of};
ghost use Rattle.tlua_top.specs.Lines.{place_text, refusal_line, crossing_text, crossing_line, crossing_lines, first_crossing, kind_lines, last_line, escaped, hex_digit};
ghost use Rattle.tlua_top.specs.Serving.{over_of};

use crate::serve::Over;
use itoa::Buffer;
use lua_values::raw_text;
use std::alloc::Global;
use tl_base::{Bytes, Crossing, NoMemory, Pos, Refusal};

/// Puts a number's decimal digits behind a text.
pub fn push_number(to: &mut Bytes, number: u64) -> Result<(), NoMemory>
    ensures { OnOk result (to.new ≡ to.old ++ decimal number) }
{
    let mut buffer = Buffer::new();
    to.extend(buffer.format(number).as_bytes())
}

/// Puts `FILE:LINE:COLUMN` behind a text.
pub fn push_place(to: &mut Bytes, file: &[u8], pos: Pos) -> Result<(), NoMemory>
    ensures { OnOk result (to.new ≡ to.old ++ place_text file.now pos) }
{
    to.extend(file)?;
    to.extend(b":")?;
    push_number(to, u64::from(pos.line))?;
    to.extend(b":")?;
    push_number(to, u64::from(pos.column))
}

/// The line of a refusal.
pub fn refusal_line(alloc: Global, file: &[u8], refusal: Refusal) -> Result<Bytes, NoMemory>
    ensures { IfOk result (λ line. line ≡ refusal_line file.now refusal) }
{
    let mut line = Bytes::from_slice(alloc, b"refused ")?;
    push_place(&mut line, file, refusal.pos)?;
    line.extend(b" ")?;
    line.extend(refusal.code.name().as_bytes())?;
    line.extend(b"\n")?;
    Ok(line)
}

/// Puts a crossing's place and kind behind a text.
pub fn push_crossing(to: &mut Bytes, file: &[u8], crossing: Crossing) -> Result<(), NoMemory>
    ensures { OnOk result (to.new ≡ to.old ++ crossing_text file.now crossing) }
{
    push_place(to, file, crossing.pos)?;
    to.extend(b" ")?;
    to.extend(crossing.kind.name().as_bytes())
}

fn push_crossing_line(to: &mut Bytes, file: &[u8], crossing: Crossing) -> Result<(), NoMemory>
    ensures { OnOk result (to.new ≡ to.old ++ crossing_line file.now crossing) }
{
    to.extend(b"crossing ")?;
    push_crossing(to, file, crossing)?;
    to.extend(b"\n")
}

/// The lines of the crossings.
pub fn crossing_lines(alloc: Global, file: &[u8], crossings: &[Crossing]) -> Result<Bytes, NoMemory>
    ensures { IfOk result (λ lines. lines ≡ crossing_lines file.now crossings.now) }
{
    let mut lines = Bytes::new(alloc);
    for crossing in crossings {
        push_crossing_line(&mut lines, file, *crossing)?;
    }
    Ok(lines)
}

fn hex_digit(value: u8) -> u8
    requires { value < 16 }
    ensures { result ≡ hex_digit value }
{
    if value < 10 { value + b'0' } else { value + 87 }
}

fn push_escaped(to: &mut Bytes, byte: u8) -> Result<(), NoMemory>
    ensures { OnOk result (to.new ≡ to.old ++ escaped byte) }
{
    if byte < 32 || byte > 126 || byte == b'\\' {
        to.extend(b"\\x")?;
        to.push(hex_digit(byte / 16))?;
        to.push(hex_digit(byte % 16))
    } else {
        to.push(byte)
    }
}

/// Puts an error's text behind a text, on one line and in ASCII.
pub fn push_error_text(to: &mut Bytes, text: &[u8]) -> Result<(), NoMemory>
    ensures { OnOk result (to.new ≡ to.old ++ flat_map escaped text.now) }
{
    for byte in text {
        push_escaped(to, *byte)?;
    }
    Ok(())
}

fn push_first_crossing(
    to: &mut Bytes,
    file: &[u8],
    crossing: Option<Crossing>,
) -> Result<(), NoMemory>
    ensures { OnOk result (to.new ≡ to.old ++ first_crossing file.now crossing) }
{
    match crossing {
        None => to.extend(b"none"),
        Some(crossing) => push_crossing(to, file, crossing),
    }
}

/// Puts the line of a run's first operand-kind error behind a text, if there is one: its place, and the first crossing passed before it.
pub fn push_kind_lines(
    to: &mut Bytes,
    file: &[u8],
    error: Option<(Pos, Option<Crossing>)>,
) -> Result<(), NoMemory>
    ensures { OnOk result (to.new ≡ to.old ++ kind_lines file.now (kind_error_of error)) }
{
    match error {
        None => Ok(()),
        Some((place, after)) => {
            to.extend(b"kind ")?;
            push_place(to, file, place)?;
            to.extend(b" after ")?;
            push_first_crossing(to, file, after)?;
            to.extend(b"\n")
        }
    }
}

/// Puts the last line of a run behind a text: how it is over, and the turns that it used.
pub fn push_last_line(
    alloc: Global,
    to: &mut Bytes,
    over: &Over,
    turns: u64,
) -> Result<(), NoMemory>
    ensures { OnOk result (to.new ≡ to.old ++ last_line (over_of over.now) turns) }
{
    match over {
        Over::Done => {
            to.extend(b"done ")?;
            push_number(to, turns)?;
        }
        Over::Raised(value) => {
            to.extend(b"error ")?;
            push_number(to, turns)?;
            to.extend(b" ")?;
            let text = raw_text(alloc, value)?;
            push_error_text(to, text.bytes())?;
        }
        Over::Spent => {
            to.extend(b"cut ")?;
            push_number(to, turns)?;
        }
    }
    to.extend(b"\n")
}
