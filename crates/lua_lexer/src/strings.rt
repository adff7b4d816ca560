ghost use Rattle.std.specs.Prelude.{◌≡◌, true, ◌<◌, ◌≤◌, [], ◌∷◌, ◌++◌, List, ℕ, MatchOption, IfOk, IfSome, length};
ghost use Rattle.lua_lexer.specs.Letters.{is_quote};
ghost use Rattle.lua_lexer.specs.Strings.{Ends, Reads};
ghost use Rattle.lua_lexer.specs.Brackets.{Unified, Meant};
ghost use Rattle.lua_lexer.specs.Reading.{NeverEnds};
ghost use Rattle.lua_lexer.specs.Decoding.{IsStep, IsDecoded, IsPast, IsNotEnded, IsUnifiedStep};

use crate::escapes::{escape, push};
use crate::letters::is_line_byte;
use crate::lines::{behind_line_byte, behind_line_end, front};
use std::alloc::Global;
use tl_base::{Bytes, NoMemory};

/// What stands at the front of the rest of a string.
enum Step<'a> {
    /// A good part, which has been put at the end of what the string means, and what follows it.
    Part(&'a [u8]),
    /// The closing quote, and what follows it.
    Closed(&'a [u8]),
    /// A bad escape.
    Spoiled,
    /// The end of the line or of the file.
    Broken,
    NoMemory,
}

/// What came of a string, from behind its opening quote.
pub(crate) enum Decoded<'a> {
    /// What it means, and what follows its closing quote.
    Read(Bytes, &'a [u8]),
    /// Its first bad backslash and what follows.
    Spoiled(&'a [u8]),
    /// It isn't ended.
    Broken,
    NoMemory,
}

/// Reads one part of a string.
fn read_part<'a>(out: &mut Bytes, quote: u8, text: &'a [u8]) -> Step<'a>
    requires { is_quote quote ≡ true }
    ensures { IsStep quote text.now out.old out.new result }
{
    let Some((byte, tail)) = front(text) else {
        return Step::Broken;
    };
    if byte == quote {
        return Step::Closed(tail);
    }
    if is_line_byte(byte) {
        return Step::Broken;
    }
    if byte != b'\\' {
        return match out.push(byte) {
            Ok(()) => Step::Part(tail),
            Err(_) => Step::NoMemory,
        };
    }
    match escape(tail) {
        None => Step::Spoiled,
        Some((escaped, rest)) => match push(out, escaped) {
            Ok(()) => Step::Part(rest),
            Err(_) => Step::NoMemory,
        },
    }
}

/// Reads a string from behind its opening quote.
pub(crate) fn decode<'a>(alloc: Global, quote: u8, text: &'a [u8]) -> Decoded<'a>
    requires { is_quote quote ≡ true }
    ensures { IsDecoded quote text.now result }
{
    let mut out = Bytes::new(alloc);
    let mut rest = text;
    loop {
        match read_part(&mut out, quote, rest) {
            Step::Part(after) => rest = after,
            Step::Closed(after) => return Decoded::Read(out, after),
            Step::Spoiled => return Decoded::Spoiled(rest),
            Step::Broken => return Decoded::Broken,
            Step::NoMemory => return Decoded::NoMemory,
        }
    }
}

/// What follows one part, good or bad, of a string that is not ended here.
fn past(quote: u8, text: &[u8]) -> Option<&[u8]>
    requires quote { is_quote quote ≡ true }
    requires open { IsNotEnded quote text.now }
    ensures { IsPast quote text.now result }
{
    let Some((byte, tail)) = front(text) else {
        return None;
    };
    if is_line_byte(byte) {
        return None;
    }
    if byte != b'\\' {
        return Some(tail);
    }
    match escape(tail) {
        Some((_, rest)) => Some(rest),
        None => match front(tail) {
            None => None,
            Some((_, rest)) => Some(rest),
        },
    }
}

/// What follows the closing quote of a string, from behind its opening quote.
pub(crate) fn ending(quote: u8, text: &[u8]) -> Option<&[u8]>
    requires { is_quote quote ≡ true }
    ensures { MatchOption result (NeverEnds quote text.now) (λ r. Ends quote text.now r.now) }
{
    let mut rest = text;
    while let Some((byte, tail)) = front(rest) {
        if byte == quote {
            return Some(tail);
        }
        match past(quote, rest) {
            None => return None,
            Some(after) => rest = after,
        }
    }
    None
}

/// Reads the first byte of a long string, or its first line end as an LF.
fn unified_step<'a>(out: &mut Bytes, byte: u8, text: &'a [u8]) -> Result<&'a [u8], NoMemory>
    ensures { IfOk result (λ r. IsUnifiedStep byte text.now out.old out.new r.now) }
{
    if is_line_byte(byte) {
        out.push(b'\n')?;
        Ok(behind_line_byte(byte, text))
    } else {
        out.push(byte)?;
        Ok(text)
    }
}

/// The text with an LF for each line end.
fn unified(alloc: Global, text: &[u8]) -> Result<Bytes, NoMemory>
    ensures { IfOk result (λ out. Unified text.now out) }
{
    let mut out = Bytes::new(alloc);
    let mut rest = text;
    while let Some((byte, tail)) = front(rest) {
        rest = unified_step(&mut out, byte, tail)?;
    }
    Ok(out)
}

/// What a long string means by the text between its brackets.
pub(crate) fn meaning(alloc: Global, inside: &[u8]) -> Result<Bytes, NoMemory>
    ensures { IfOk result (λ out. Meant inside.now out) }
{
    match behind_line_end(inside) {
        None => unified(alloc, inside),
        Some(rest) => unified(alloc, rest),
    }
}
