//! From the bytes of a file to a program that may run, phase by phase.

ghost use Rattle.std.specs.Prelude.{◌≡◌, IfOk, IfErr};
ghost use Rattle.tlua_top.specs.Words.{Text};
ghost use Rattle.tlua_top.specs.Phases.{of_file};
ghost use Rattle.tlua_top.specs.Defined.{OfScoped, OfTree, OfTokens, OfSource};
ghost use Rattle.tlua_top.specs.Asked.{Accepts, IsListed};

use built_forms::is_built;
use crossings::crossing_list;
use lua_lexer::{Token, lex};
use lua_parser::parse;
use lua_scope::resolve;
use lua_tree::{Chunk, Scoped};
use std::alloc::Global;
use tl_base::{Bytes, Crossing, Failure, List, ModuleKind, Pos, Refusal, RefusalCode};
use tl_check::check_module;

/// A program that nothing refuses.
#[derive(Drop)]
pub struct Program {
    /// the word of its file
    pub file: Bytes,
    /// its module, with the marks of its crossings
    pub scoped: Scoped,
    /// its crossings in the order of the report
    pub crossings: List<Crossing>,
}

/// A refusal of the file as a whole.
pub fn of_file(code: RefusalCode) -> Refusal
    ensures { result ≡ of_file code }
{
    let pos = Pos {
        module: 0,
        line: 1,
        column: 1,
    };
    Refusal { code, pos }
}

/// The program of a module whose names mean what they say: it is of a form that is built, and its types fit.
fn of_scoped(alloc: Global, file: &str, scoped: Scoped) -> Result<Program, Failure>
    ensures { (input : Text) → Accepts (OfScoped file.now input scoped) file.now input result }
{
    if !is_built(&scoped) {
        return Err(Failure::Refused(of_file(RefusalCode::X1)));
    }
    match check_module(alloc, scoped) {
        Ok(scoped) => listed(alloc, file, scoped),
        Err(failure) => Err(failure),
    }
}

/// The program of a module with its marks.
fn listed(alloc: Global, file: &str, scoped: Scoped) -> Result<Program, Failure>
    ensures listed { IfOk result (IsListed file.now scoped) }
    ensures memory { IfErr result (λ f. f ≡ Failure.NoMemory) }
{
    let crossings = crossing_list(alloc, &scoped.chunk.body)?;
    let file = Bytes::from_slice(alloc, file.as_bytes())?;
    Ok(Program {
        file,
        scoped,
        crossings,
    })
}

/// The program of a module's tree.
fn of_tree(alloc: Global, file: &str, tree: Chunk) -> Result<Program, Failure>
    ensures { (input : Text) → Accepts (OfTree file.now input tree) file.now input result }
{
    match resolve(alloc, tree) {
        Ok(scoped) => of_scoped(alloc, file, scoped),
        Err(failure) => Err(failure),
    }
}

/// The program of a module's tokens.
fn of_tokens(
    alloc: Global,
    file: &str,
    kind: ModuleKind,
    source: &[u8],
    tokens: &List<Token>,
) -> Result<Program, Failure>
    ensures { (input : Text) → Accepts (OfTokens file.now input kind source.now tokens.now) file.now input result }
{
    match parse(alloc, 0, kind, source, tokens) {
        Ok(tree) => of_tree(alloc, file, tree),
        Err(failure) => Err(failure),
    }
}

/// The program of a file's bytes, whose module is of this kind.
pub fn of_source(
    alloc: Global,
    file: &str,
    kind: ModuleKind,
    source: &[u8],
) -> Result<Program, Failure>
    ensures { (input : Text) → Accepts (OfSource file.now input kind source.now) file.now input result }
{
    match lex(alloc, 0, source) {
        Ok(tokens) => of_tokens(alloc, file, kind, source, &tokens),
        Err(failure) => Err(failure),
    }
}
