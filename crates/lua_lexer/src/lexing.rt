ghost use Rattle.std.specs.Prelude.{◌≡◌, ◌+◌, ◌≤◌, ◌<◌, length, List as Seq, IfOk, IfErr, Ok, Err, Result};
ghost use Rattle.lua_lexer.specs.Lines.{span, spot_at, first_spot};
ghost use Rattle.lua_lexer.specs.Reading.{EndsWith};
ghost use Rattle.lua_lexer.specs.Tokens.{body, most, Lexed, Refused, IsFailure, IsTokens, IsRefusal};
ghost use Rattle.lua_lexer.specs.Finding.{IsTurn, made};
ghost use Rattle.lua_lexer.specs.declared.token.Token.{Token};
ghost use Rattle.tl_base.specs.declared.refusal.Refusal.{Refusal};

use crate::lines::{Spot, front, to_line_end};
use crate::pieces::{Found, find};
use crate::separators::skip;
use crate::{Token, TokenKind};
use std::alloc::Global;
use tl_base::{Failure, List, Refusal, RefusalCode};

/// The greatest length of a file.
const MOST: usize = 1048576;

/// What one turn of the reading did.
enum Turn<'a> {
    /// A token was read. What follows it, and its place.
    On(&'a [u8], Spot),
    /// The last token was read.
    Done,
    Refused(Refusal),
    NoMemory,
}

/// The text without a first line that begins with `#`.
fn body(text: &[u8]) -> &[u8]
    ensures { result.now ≡ body text.now }
{
    match front(text) {
        None => text,
        Some((first, _)) => {
            if first == b'#' {
                to_line_end(text)
            } else {
                text
            }
        }
    }
}

/// The place of an end of the text, from that of an earlier one. Only the contract speaks of the whole text.
fn place(all: &[u8], spot: Spot, from: &[u8], to: &[u8]) -> Spot
    requires fits { length all.now ≤ most }
    requires spot { spot ≡ spot_at all.now from.now }
    requires from { EndsWith all.now from.now }
    requires to { EndsWith from.now to.now }
    ensures { result ≡ spot_at all.now to.now }
{
    spot.further_on(&from[..from.len() - to.len()])
}

/// The token of a kind between two ends of the text.
fn make_token(
    module: u32,
    all: &[u8],
    kind: TokenKind,
    spot: Spot,
    from: &[u8],
    rest: &[u8],
) -> Token
    requires fits { length all.now ≤ most }
    requires from { length from.now ≤ length all.now }
    requires rest { length rest.now ≤ length all.now }
    ensures { result ≡ made «module» all.now spot kind from.now rest.now }
{
    Token {
        kind,
        start: (all.len() - from.len()) as u32,
        end: (all.len() - rest.len()) as u32,
        pos: spot.pos(module),
    }
}

/// Reads the separators and the token at the front of the rest of the text.
fn read_one<'a>(
    alloc: Global,
    module: u32,
    all: &[u8],
    tokens: &mut List<Token>,
    rest: &'a [u8],
    spot: Spot,
) -> Turn<'a>
    requires fits { length all.now ≤ most }
    requires spot { spot ≡ spot_at all.now rest.now }
    requires rest { EndsWith all.now rest.now }
    ensures { IsTurn «module» all.now rest.now tokens.old tokens.new result }
{
    let from = skip(rest);
    let start = place(all, spot, rest, from);
    match front(from) {
        None => match tokens.push(make_token(module, all, TokenKind::End, start, from, from)) {
            Ok(()) => Turn::Done,
            Err(_) => Turn::NoMemory,
        },
        Some((first, tail)) => match find(alloc, from, first, tail) {
            Found::NoMemory => Turn::NoMemory,
            Found::Fault(code, at) => {
                let pos = place(all, start, from, at).pos(module);
                Turn::Refused(Refusal { code, pos })
            }
            Found::Token(kind, after) => match tokens.push(make_token(
                module, all, kind, start, from, after,
            )) {
                Ok(()) => Turn::On(after, place(all, start, from, after)),
                Err(_) => Turn::NoMemory,
            },
        },
    }
}

/// The tokens of a text of allowed length, or its first fault.
fn read(alloc: Global, module: u32, bytes: &[u8]) -> Result<List<Token>, Failure>
    requires { length bytes.now ≤ most }
    ensures ok { IfOk result (λ ts. Lexed «module» bytes.now ts) }
    ensures refused { IfErr result (λ e. IsFailure «module» bytes.now e) }
{
    let mut tokens = List::new(alloc);
    let mut rest = body(bytes);
    let mut spot = place(bytes, Spot::first(), bytes, rest);
    loop {
        match read_one(alloc, module, bytes, &mut tokens, rest, spot) {
            Turn::On(after, next) => {
                rest = after;
                spot = next;
            }
            Turn::Done => return Ok(tokens),
            Turn::Refused(refusal) => return Err(Failure::Refused(refusal)),
            Turn::NoMemory => return Err(Failure::NoMemory),
        }
    }
}

/// The tokens of a file's text, the last of them `End`, or its first refusal: L5 for a file longer than 1048576 bytes, else
/// the first of L1 to L4 by place. `module` is the file's number, which the places bear.
pub fn lex(alloc: Global, module: u32, bytes: &[u8]) -> Result<List<Token>, Failure>
    ensures ok { IfOk result (λ ts. Lexed «module» bytes.now ts) }
    ensures refused { IfErr result (λ e. IsFailure «module» bytes.now e) }
    ensures only_tokens { (ts : Seq Token) → Lexed «module» bytes.now ts → IsTokens ts result }
    ensures only_refusal { (r : Refusal) → Refused «module» bytes.now r → IsRefusal r result }
{
    if bytes.len() > MOST {
        return Err(Failure::Refused(Refusal {
            code: RefusalCode::L5,
            pos: Spot::first().pos(module),
        }));
    }
    read(alloc, module, bytes)
}
