ghost use Rattle.std.specs.Prelude.{◌≡◌, ◌≤◌, ◌↔◌, [], None, Ok, Err, IfOk, IfErr, IsTrue, take, length};
ghost use Rattle.tl_base.specs.declared.place.ModuleKind.{ModuleKind};
ghost use Rattle.lua_parser.specs.Words.{words_of};
ghost use Rattle.lua_parser.specs.Grammar.Fault.{IsViable};
ghost use Rattle.lua_parser.specs.Grammar.TooDeep.{limits};
ghost use Rattle.lua_parser.specs.Counting.Verdict.{IsFirstOver};
ghost use Rattle.lua_parser.specs.Machine.Run.{run, module_plan};
ghost use Rattle.lua_parser.specs.Parsing.{IsModule, IsShallow, IsFailure, head_foreign, code_if};

use crate::cursor::{Cursor, Stop};
use crate::reader::{Mode, Reader};
use crate::verdicts::{count, verdict};
use lua_lexer::Token;
use lua_tree::Chunk;
use std::alloc::Global;
use tl_base::{Failure, ModuleKind, NoMemory, Refusal, RefusalCode};

/// The tree that was read, or the refusal at the first token that is too deep.
pub(crate) fn whole(
    alloc: Global,
    source: &[u8],
    tokens: &[Token],
    chunk: Chunk,
) -> Result<Chunk, Failure>
    requires { run chunk.kind module_plan (words_of source.now tokens.now) ≡ Ok chunk.body }
    ensures tree { IfOk result (λ c. IsModule chunk.«module» chunk.kind (words_of source.now tokens.now) c) }
    ensures refused { IfErr result (λ e. IsFailure chunk.kind (words_of source.now tokens.now) e) }
{
    match verdict(alloc, source, tokens) {
        Ok(Some(number)) => Err(deep_refusal(source, tokens, tokens.len(), number)),
        Ok(None) => Ok(chunk),
        Err(NoMemory) => Err(Failure::NoMemory),
    }
}

/// The refusal at the first token that is too deep or, where none before those that are left is, at the first that is left.
pub(crate) fn refusal(
    alloc: Global,
    kind: ModuleKind,
    source: &[u8],
    tokens: &[Token],
    left: &Cursor<'_>,
) -> Failure
    requires { run kind module_plan (words_of source.now tokens.now) ≡ Err left.now }
    ensures { IsFailure kind (words_of source.now tokens.now) result }
{
    let read = tokens.len().saturating_sub(left.len());
    match verdict(alloc, source, &tokens[..read]) {
        Ok(Some(number)) => deep_refusal(source, tokens, read, number),
        Ok(None) => fault(alloc, kind, source, tokens, left),
        Err(NoMemory) => Failure::NoMemory,
    }
}

/// The refusal of a module that was read far past its first token that is too deep, to where so many tokens are left.
pub(crate) fn read_too_far(
    alloc: Global,
    kind: ModuleKind,
    source: &[u8],
    tokens: &[Token],
    left: usize,
) -> Failure
    ensures { IsFailure kind (words_of source.now tokens.now) result }
{
    let read = tokens.len().saturating_sub(left);
    match count(alloc, source, &tokens[..read]) {
        Ok(tally) => match tally.reached.first_over() {
            Some(number) => known_deep(alloc, kind, source, tokens, number),
            None => Failure::NoMemory,
        },
        Err(NoMemory) => Failure::NoMemory,
    }
}

/// The refusal where a token is known to be too deep: the two behind it settle that it is the first, if some module begins with them.
fn known_deep(
    alloc: Global,
    kind: ModuleKind,
    source: &[u8],
    tokens: &[Token],
    number: usize,
) -> Failure
    ensures { IsFailure kind (words_of source.now tokens.now) result }
{
    let read = number.saturating_add(3).min(tokens.len());
    match begins_module(alloc, kind, source, &tokens[..read]) {
        Ok(true) => first_deep(alloc, kind, source, tokens, read),
        Ok(false) => Failure::NoMemory,
        Err(NoMemory) => Failure::NoMemory,
    }
}

/// The refusal at the first token that is too deep of so many with which some module begins.
fn first_deep(
    alloc: Global,
    kind: ModuleKind,
    source: &[u8],
    tokens: &[Token],
    read: usize,
) -> Failure
    requires within { read ≤ length tokens.now }
    requires begins { IsViable kind (words_of source.now (take read tokens.now)) }
    ensures { IsFailure kind (words_of source.now tokens.now) result }
{
    match verdict(alloc, source, &tokens[..read]) {
        Ok(Some(number)) => deep_refusal(source, tokens, read, number),
        Ok(None) => Failure::NoMemory,
        Err(NoMemory) => Failure::NoMemory,
    }
}

/// The refusal at the token of this number, which is the first that is too deep of so many with which some module begins.
fn deep_refusal(source: &[u8], tokens: &[Token], read: usize, number: usize) -> Failure
    requires { IsFirstOver limits (words_of source.now (take read tokens.now)) number }
    ensures { (kind : ModuleKind) → IsViable kind (words_of source.now (take read tokens.now)) → IsFailure kind (words_of source.now tokens.now) result }
{
    match tokens.get(number) {
        Some(token) => Failure::Refused(Refusal {
            code: RefusalCode::P4,
            pos: token.pos,
        }),
        None => Failure::NoMemory,
    }
}

/// The refusal at the first token that is left where reading stops.
fn fault(
    alloc: Global,
    kind: ModuleKind,
    source: &[u8],
    tokens: &[Token],
    left: &Cursor<'_>,
) -> Failure
    requires stops { run kind module_plan (words_of source.now tokens.now) ≡ Err left.now }
    requires shallow { IsShallow kind (words_of source.now tokens.now) }
    ensures { IsFailure kind (words_of source.now tokens.now) result }
{
    if left.is_over() {
        return Failure::NoMemory;
    }
    match left.foreign() {
        Some(code) => Failure::Refused(Refusal {
            code,
            pos: left.pos(),
        }),
        None => own_fault(alloc, kind, source, tokens, left),
    }
}

/// The refusal at the first token that is left where reading stops, which is one that Lua has.
fn own_fault(
    alloc: Global,
    kind: ModuleKind,
    source: &[u8],
    tokens: &[Token],
    left: &Cursor<'_>,
) -> Failure
    requires stops { run kind module_plan (words_of source.now tokens.now) ≡ Err left.now }
    requires shallow { IsShallow kind (words_of source.now tokens.now) }
    requires some { left.now ≡ [] → ⊥ }
    requires own { head_foreign left.now ≡ None }
    ensures { IsFailure kind (words_of source.now tokens.now) result }
{
    let behind = tokens.len().saturating_sub(left.len().saturating_sub(1));
    match begins_module(alloc, ModuleKind::Typed, source, &tokens[..behind]) {
        Ok(goes) => Failure::Refused(Refusal {
            code: types_code(goes),
            pos: left.pos(),
        }),
        Err(NoMemory) => Failure::NoMemory,
    }
}

/// The code of a token that would go on in a typed module, or wouldn't.
fn types_code(goes: bool) -> RefusalCode
    ensures { result ≡ code_if goes }
{
    if goes {
        RefusalCode::P5
    } else {
        RefusalCode::P1
    }
}

/// Whether some module begins with these tokens.
fn begins_module(
    alloc: Global,
    kind: ModuleKind,
    source: &[u8],
    tokens: &[Token],
) -> Result<bool, NoMemory>
    ensures { IfOk result (λ begins. IsTrue begins ↔ IsViable kind (words_of source.now tokens.now)) }
{
    let mut reader = Reader::new(alloc, kind, source, tokens);
    match reader.read(Mode::Block) {
        Ok(_) => Ok(true),
        Err(Stop::Unexpected) => Ok(reader.cursor.is_over()),
        Err(_) => Err(NoMemory),
    }
}
