ghost use Rattle.std.specs.Prelude.{◌≡◌, List as Seq};
ghost use Rattle.lua_lexer.specs.declared.token.Symbol.TheVariants as s;
ghost use Rattle.lua_parser.specs.Machine.Plan.{Item, read};
ghost use Rattle.lua_parser.specs.TypeReadings.{Turns, ReadsPart, ReadsIn, MeetsColon};

use crate::cursor::{Cursor, Stop};
use crate::type_parts::{Nest, field_name, field_of, meets, single, tuple_of};
use crate::types::{any_type, tuple};
use lua_lexer::{Keyword, Symbol};
use lua_tree::{TypeExpr, TypeField, TypeResults};
use std::alloc::Global;
use tl_base::{List, ModuleKind, Pos};

// `depth` says how many constructs are open at the first token.

/// `: type` behind a name, in a typed module.
pub(crate) fn annotation(
    alloc: Global,
    kind: ModuleKind,
    depth: u32,
    cursor: &mut Cursor<'_>,
) -> Result<Option<TypeExpr>, Stop>
    ensures { ReadsIn kind Item.annotation cursor.old result cursor.new }
{
    if !meets_colon(kind, cursor)? {
        return Ok(None);
    }
    let ty = a_type(alloc, depth, cursor)?;
    Ok(Some(ty))
}

/// `: results` of a function's body, in a typed module.
pub(crate) fn outcome(
    alloc: Global,
    kind: ModuleKind,
    depth: u32,
    cursor: &mut Cursor<'_>,
) -> Result<Option<TypeResults>, Stop>
    ensures { ReadsIn kind Item.outcome cursor.old result cursor.new }
{
    if !meets_colon(kind, cursor)? {
        return Ok(None);
    }
    let results = body_results(alloc, depth, cursor)?;
    Ok(Some(results))
}

/// A type.
pub(crate) fn a_type(alloc: Global, depth: u32, cursor: &mut Cursor<'_>) -> Result<TypeExpr, Stop>
    ensures { ReadsPart 1 Item.a_type (λ v. v) cursor.old result cursor.new }
{
    let mut height = 0;
    any_type(alloc, Nest { depth, chain: 0 }, cursor, &mut height)
}

/// The fields of an interface, with the `end` behind them.
pub(crate) fn fields_of_interface(
    alloc: Global,
    depth: u32,
    cursor: &mut Cursor<'_>,
) -> Result<List<TypeField>, Stop>
    ensures { ReadsPart 1 Item.fields_of_interface (λ v. v) cursor.old result cursor.new }
{
    let mut fields = List::new(alloc);
    while !cursor.eat_word(Keyword::End) {
        let name = cursor.name(alloc)?;
        let start = field_name(alloc, cursor, name)?;
        let ty = a_type(alloc, depth, cursor)?;
        fields.push(field_of(start, ty))?;
        separator(cursor)?;
    }
    Ok(fields)
}

/// Takes the colon of a type, if it is the first token in a typed module. There has to be a first token.
fn meets_colon(kind: ModuleKind, cursor: &mut Cursor<'_>) -> Result<bool, Stop>
    ensures { MeetsColon kind cursor.old result cursor.new }
{
    if cursor.is_over() {
        return Err(Stop::Unexpected);
    }
    match kind {
        ModuleKind::Typed => Ok(cursor.eat(Symbol::Colon)),
        ModuleKind::Untyped => Ok(false),
    }
}

/// Takes what separates two fields of an interface, if it is there.
fn separator(cursor: &mut Cursor<'_>) -> Result<(), Stop>
    ensures { ReadsPart 0 Item.maybe_separator (λ v. v) cursor.old result cursor.new }
{
    if meets(cursor, Symbol::Comma)? {
        return Ok(());
    }
    if meets(cursor, Symbol::Semicolon)? {
        return Ok(());
    }
    Ok(())
}

/// The results of a function's body.
fn body_results(alloc: Global, depth: u32, cursor: &mut Cursor<'_>) -> Result<TypeResults, Stop>
    ensures { ReadsPart 1 Item.body_results (λ v. v) cursor.old result cursor.new }
{
    let mut height = 0;
    let pos = cursor.pos();
    if !cursor.eat(Symbol::OpenParen) {
        let ty = a_type(alloc, depth, cursor)?;
        return Ok(single(alloc, ty)?);
    }
    let inside = Nest { depth, chain: 0 }.inside(cursor, Symbol::CloseParen, Symbol::CloseParen)?;
    let mut tuples = List::new(alloc);
    loop {
        let types = tuple(alloc, inside, cursor, &mut height)?;
        tuples.push(tuple_of(types))?;
        if !meets(cursor, Symbol::Pipe)? {
            return Ok(TypeResults { pos, tuples });
        }
        cursor.want(Symbol::OpenParen)?;
    }
}
