ghost use Rattle.std.specs.Prelude.{◌≡◌, true, false, ◌∷◌, MatchOption};
ghost use Rattle.lua_lexer.specs.Letters.{is_letter, is_digit, is_quote};
ghost use Rattle.lua_lexer.specs.Numerals.{begins_numeral};
ghost use Rattle.lua_lexer.specs.Brackets.{Opens};
ghost use Rattle.lua_lexer.specs.Reading.{NeverOpens, IsCommentTest};
ghost use Rattle.lua_lexer.specs.Finding.{IsFound};
ghost use Rattle.lua_lexer.specs.Lines.{span};

use crate::TokenKind;
use crate::brackets::{closing, opening};
use crate::letters::{is_digit, is_letter, is_quote};
use crate::lines::front;
use crate::numerals::{begins_with_digit, behind_numeral, integer, is_hexadecimal};
use crate::signs::sign;
use crate::strings::{Decoded, decode, ending, meaning};
use crate::words::{behind_word, keyword};
use std::alloc::Global;
use tl_base::RefusalCode;

/// What is found at the front of a text that no separator begins.
pub(crate) enum Found<'a> {
    /// A token and what follows it.
    Token(TokenKind, &'a [u8]),
    /// A fault and the text from its place on.
    Fault(RefusalCode, &'a [u8]),
    NoMemory,
}

/// A keyword or a name.
fn word<'a>(text: &'a [u8], first: u8, tail: &'a [u8]) -> Found<'a>
    requires front { text.now ≡ first ∷ tail.now }
    requires letter { is_letter first ≡ true }
    ensures { IsFound text.now result }
{
    let rest = behind_word(tail);
    match keyword(&text[..text.len() - rest.len()]) {
        None => Found::Token(TokenKind::Name, rest),
        Some(word) => Found::Token(TokenKind::Word(word), rest),
    }
}

/// A numeral.
fn numeral<'a>(text: &'a [u8], first: u8, tail: &'a [u8]) -> Found<'a>
    requires front { text.now ≡ first ∷ tail.now }
    requires begins { begins_numeral text.now ≡ true }
    ensures { IsFound text.now result }
{
    let rest = behind_numeral(is_hexadecimal(text), first, tail);
    match integer(&text[..text.len() - rest.len()]) {
        None => Found::Fault(RefusalCode::L4, text),
        Some(value) => Found::Token(TokenKind::Int(value), rest),
    }
}

/// A short string.
fn short<'a>(alloc: Global, text: &'a [u8], quote: u8, tail: &'a [u8]) -> Found<'a>
    requires front { text.now ≡ quote ∷ tail.now }
    requires quoted { is_quote quote ≡ true }
    ensures { IsFound text.now result }
{
    match decode(alloc, quote, tail) {
        Decoded::Read(bytes, rest) => Found::Token(TokenKind::Str(bytes), rest),
        Decoded::Broken => Found::Fault(RefusalCode::L2, text),
        Decoded::NoMemory => Found::NoMemory,
        Decoded::Spoiled(at) => match ending(quote, at) {
            None => Found::Fault(RefusalCode::L2, text),
            Some(_) => Found::Fault(RefusalCode::L3, at),
        },
    }
}

/// A long string, of which the opening bracket is read.
fn long<'a>(alloc: Global, text: &'a [u8], level: usize, inside: &'a [u8]) -> Found<'a>
    requires { Opens level text.now inside.now }
    ensures { IsFound text.now result }
{
    match closing(level, inside) {
        None => Found::Fault(RefusalCode::L2, text),
        Some((between, rest)) => match meaning(alloc, between) {
            Err(_) => Found::NoMemory,
            Ok(bytes) => Found::Token(TokenKind::Str(bytes), rest),
        },
    }
}

/// Whether a comment with a long bracket begins.
fn opens_comment(text: &[u8]) -> bool
    ensures { IsCommentTest text.now result }
{
    match front(text) {
        None => false,
        Some((first, tail)) => {
            if first != b'-' {
                return false;
            }
            match front(tail) {
                None => false,
                Some((second, rest)) => second == b'-' && opening(rest).is_some(),
            }
        }
    }
}

/// A symbol, or a byte that begins nothing.
fn symbol<'a>(text: &'a [u8], first: u8, tail: &'a [u8]) -> Found<'a>
    requires front { text.now ≡ first ∷ tail.now }
    requires letter { is_letter first ≡ false }
    requires begins { begins_numeral text.now ≡ false }
    requires quoted { is_quote first ≡ false }
    requires bracket { NeverOpens text.now }
    ensures { IsFound text.now result }
{
    if opens_comment(text) {
        return Found::Fault(RefusalCode::L2, text);
    }
    match sign(text) {
        None => Found::Fault(RefusalCode::L1, text),
        Some((symbol, rest)) => Found::Token(TokenKind::Sym(symbol), rest),
    }
}

/// Whether a numeral begins.
fn begins_numeral(first: u8, tail: &[u8]) -> bool
    ensures { result ≡ begins_numeral (first ∷ tail.now) }
{
    is_digit(first) || (first == b'.' && begins_with_digit(tail))
}

/// The token or the fault at the front of a text.
pub(crate) fn find<'a>(alloc: Global, text: &'a [u8], first: u8, tail: &'a [u8]) -> Found<'a>
    requires { text.now ≡ first ∷ tail.now }
    ensures { IsFound text.now result }
{
    if is_letter(first) {
        return word(text, first, tail);
    }
    if begins_numeral(first, tail) {
        return numeral(text, first, tail);
    }
    if is_quote(first) {
        return short(alloc, text, first, tail);
    }
    match opening(text) {
        None => symbol(text, first, tail),
        Some((level, inside)) => long(alloc, text, level, inside),
    }
}
