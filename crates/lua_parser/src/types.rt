ghost use Rattle.std.specs.Prelude.{◌≡◌, List as Seq};
ghost use Rattle.lua_parser.specs.Machine.Plan.{Item, read};
ghost use Rattle.lua_parser.specs.Machine.Steps.{tuple_then};
ghost use Rattle.lua_parser.specs.TypeReadings.{Turns, Gets, ReadsPart, after_of, member_of, items_of, returned_of, one_more, taken_by, rest_of_union, behind_paren, rest_of_map, fields_behind};

use crate::cursor::{Cursor, Stop};
use crate::type_parts::{
    After, FieldName, Items, Join, Member, Named, Nest, Returned, array, closes, dotted,
    ends_function, field_of, field_or_other, function, joins, literal, map_type, marked,
    maybe_name, meets, next_field, pair, parenthesised, place, single, tuple_of,
};
use lua_lexer::Symbol;
use lua_tree::{Name, TypeExpr, TypeField, TypeResults, TypeTuple};
use std::alloc::Global;
use std::cmp::max;
use tl_base::{Boxed, List, Pos};

// Each of these raises `height` to that of the highest type that it reads.

/// A type.
#[cycle(types)]
pub(crate) fn any_type(
    alloc: Global,
    nest: Nest,
    cursor: &mut Cursor<'_>,
    height: &mut u32,
) -> Result<TypeExpr, Stop>
    ensures { ReadsPart 1 Item.a_type (λ v. v) cursor.old result cursor.new }
{
    let mut inner = 0;
    let first = member(alloc, nest, cursor, &mut inner)?;
    union(alloc, nest, cursor, first, inner, height)
}

/// A type whose first member is read already, and has the height `highest`.
#[cycle(types)]
fn union(
    alloc: Global,
    nest: Nest,
    cursor: &mut Cursor<'_>,
    first: Member,
    highest: u32,
    height: &mut u32,
) -> Result<TypeExpr, Stop>
    ensures { Gets 0 (rest_of_union first) cursor.old result cursor.new }
{
    let Member { ty, after } = first;
    let mut inner = highest;
    let second = match next_member(alloc, nest, cursor, after, &mut inner)? {
        Some(second) => second,
        None => {
            *height = max(*height, inner);
            return Ok(ty);
        }
    };
    let pos = place(&ty);
    let mut ending = second.after;
    let mut types = pair(alloc, ty, second.ty)?;
    while let Some(next) = next_member(alloc, nest, cursor, ending, &mut inner)? {
        ending = next.after;
        types.push(next.ty)?;
    }
    closes(cursor, height, inner)?;
    Ok(TypeExpr::Union(pos, types))
}

/// One more member of a union, behind one that ended so.
#[cycle(types)]
fn next_member(
    alloc: Global,
    nest: Nest,
    cursor: &mut Cursor<'_>,
    after: After,
    height: &mut u32,
) -> Result<Option<Member>, Stop>
    ensures { Turns taken_by (read (Item.more_of_union (after_of after))) one_more cursor.old result cursor.new }
{
    match joins(cursor, after)? {
        Join::Over => Ok(None),
        Join::Plain => {
            let ty = plain(alloc, nest, cursor, height)?;
            Ok(Some(Member {
                ty,
                after: After::InItself,
            }))
        }
        Join::Member => {
            let next = member(alloc, nest, cursor, height)?;
            Ok(Some(next))
        }
    }
}

/// A member of a union.
#[cycle(types)]
fn member(
    alloc: Global,
    nest: Nest,
    cursor: &mut Cursor<'_>,
    height: &mut u32,
) -> Result<Member, Stop>
    ensures { ReadsPart 1 Item.a_member member_of cursor.old result cursor.new }
{
    let pos = cursor.pos();
    if cursor.eat(Symbol::OpenParen) {
        return behind_paren(alloc, nest, cursor, pos, height);
    }
    let ty = plain(alloc, nest, cursor, height)?;
    Ok(Member {
        ty,
        after: After::InItself,
    })
}

/// A member that begins with no `(`.
#[cycle(types)]
fn plain(
    alloc: Global,
    nest: Nest,
    cursor: &mut Cursor<'_>,
    height: &mut u32,
) -> Result<TypeExpr, Stop>
    ensures { ReadsPart 1 Item.a_plain_member (λ v. v) cursor.old result cursor.new }
{
    let mut own = 1;
    let pos = cursor.pos();
    if cursor.eat(Symbol::OpenBrace) {
        let braced = braces(alloc, nest, cursor, pos, &mut own)?;
        let ty = marked(alloc, cursor, braced, &mut own)?;
        *height = max(*height, own);
        return Ok(ty);
    }
    let simple = literal(alloc, cursor)?;
    let ty = marked(alloc, cursor, simple, &mut own)?;
    *height = max(*height, own);
    Ok(ty)
}

/// The rest of a member that begins with `(`, which stood at `pos`.
#[cycle(types)]
fn behind_paren(
    alloc: Global,
    nest: Nest,
    cursor: &mut Cursor<'_>,
    pos: Pos,
    height: &mut u32,
) -> Result<Member, Stop>
    ensures { Turns (λ v. 1) (behind_paren pos) (λ v k. k (member_of v)) cursor.old result cursor.new }
{
    let mut inner = 0;
    let inside = tuple(
        alloc,
        nest.inside(cursor, Symbol::CloseParen, Symbol::CloseParen)?,
        cursor,
        &mut inner,
    )?;
    if !meets(cursor, Symbol::Arrow)? {
        return parenthesised(alloc, cursor, pos, inside, height, inner);
    }
    let returned = results(alloc, nest, cursor, &mut inner)?;
    ends_function(cursor, height, inner, returned.after)?;
    Ok(function(pos, inside, returned))
}

/// The types of a tuple, with the `)` behind them.
#[cycle(types)]
pub(crate) fn tuple(
    alloc: Global,
    nest: Nest,
    cursor: &mut Cursor<'_>,
    height: &mut u32,
) -> Result<Items, Stop>
    ensures { Turns (λ v. 1) tuple_then (λ v k. k (items_of v)) cursor.old result cursor.new }
{
    let mut items = List::new(alloc);
    if cursor.eat(Symbol::CloseParen) {
        return Ok(Items { items, tail: None });
    }
    loop {
        let ty = any_type(alloc, nest, cursor, height)?;
        if cursor.eat(Symbol::Star) {
            cursor.want(Symbol::CloseParen)?;
            let tail = Some(Boxed::new(alloc, ty)?);
            return Ok(Items { items, tail });
        }
        items.push(ty)?;
        if !cursor.eat(Symbol::Comma) {
            cursor.want(Symbol::CloseParen)?;
            return Ok(Items { items, tail: None });
        }
    }
}

/// The results of a function type.
#[cycle(types)]
fn results(
    alloc: Global,
    nest: Nest,
    cursor: &mut Cursor<'_>,
    height: &mut u32,
) -> Result<Returned, Stop>
    ensures { ReadsPart 1 Item.some_results returned_of cursor.old result cursor.new }
{
    let pos = cursor.pos();
    if !cursor.eat(Symbol::OpenParen) {
        let ty = any_type(alloc, nest.in_results()?, cursor, height)?;
        return Ok(Returned {
            results: single(alloc, ty)?,
            after: After::InType,
        });
    }
    let inside = nest.inside(cursor, Symbol::CloseParen, Symbol::CloseParen)?;
    let mut tuples = List::new(alloc);
    loop {
        let types = tuple(alloc, inside, cursor, height)?;
        tuples.push(tuple_of(types))?;
        if !meets(cursor, Symbol::Pipe)? {
            return Ok(Returned {
                results: TypeResults { pos, tuples },
                after: After::InTuple,
            });
        }
        if !meets(cursor, Symbol::OpenParen)? {
            return Ok(Returned {
                results: TypeResults { pos, tuples },
                after: After::Joined,
            });
        }
    }
}

/// The rest of a type that begins with `{`, which stood at `pos`.
#[cycle(types)]
fn braces(
    alloc: Global,
    nest: Nest,
    cursor: &mut Cursor<'_>,
    pos: Pos,
    height: &mut u32,
) -> Result<TypeExpr, Stop>
    ensures { ReadsPart 1 (Item.in_braces pos) (λ v. v) cursor.old result cursor.new }
{
    let inside = nest.inside(cursor, Symbol::CloseBrace, Symbol::OpenBracket)?;
    if cursor.eat(Symbol::CloseBrace) {
        return Ok(TypeExpr::Record(pos, List::new(alloc)));
    }
    if cursor.eat(Symbol::OpenBracket) {
        return map(alloc, inside, cursor, pos, height);
    }
    match maybe_name(alloc, cursor)? {
        Some(name) => named_in_braces(alloc, inside, cursor, pos, name, height),
        None => {
            let mut inner = 0;
            let ty = any_type(alloc, inside, cursor, &mut inner)?;
            array(alloc, cursor, pos, ty, height, inner)
        }
    }
}

/// The rest of a map type, behind its bracket.
#[cycle(types)]
fn map(
    alloc: Global,
    nest: Nest,
    cursor: &mut Cursor<'_>,
    pos: Pos,
    height: &mut u32,
) -> Result<TypeExpr, Stop>
    ensures { Gets 1 (rest_of_map pos) cursor.old result cursor.new }
{
    let mut inner = 0;
    let key = any_type(
        alloc,
        nest.inside(cursor, Symbol::OpenBrace, Symbol::OpenBrace)?,
        cursor,
        &mut inner,
    )?;
    cursor.want(Symbol::CloseBracket)?;
    cursor.want(Symbol::Colon)?;
    let value = any_type(alloc, nest, cursor, &mut inner)?;
    cursor.want(Symbol::CloseBrace)?;
    closes(cursor, height, inner)?;
    Ok(map_type(alloc, pos, key, value)?)
}

/// The rest of a type in braces that begins with a name.
#[cycle(types)]
fn named_in_braces(
    alloc: Global,
    nest: Nest,
    cursor: &mut Cursor<'_>,
    pos: Pos,
    name: Name,
    height: &mut u32,
) -> Result<TypeExpr, Stop>
    ensures { ReadsPart 1 (Item.named_in_braces pos name) (λ v. v) cursor.old result cursor.new }
{
    let mut inner = 1;
    match field_or_other(alloc, cursor, name)? {
        Named::Field(first) => {
            let fields = fields(alloc, nest, cursor, first, &mut inner)?;
            closes(cursor, height, inner)?;
            Ok(TypeExpr::Record(pos, fields))
        }
        Named::Other(first) => {
            let named = dotted(alloc, cursor, first)?;
            let ty = marked(alloc, cursor, named, &mut inner)?;
            let member = Member {
                ty,
                after: After::InItself,
            };
            let mut own = 0;
            let item = union(alloc, nest, cursor, member, inner, &mut own)?;
            array(alloc, cursor, pos, item, height, own)
        }
    }
}

/// The fields of a record, behind the name of the first.
#[cycle(types)]
fn fields(
    alloc: Global,
    nest: Nest,
    cursor: &mut Cursor<'_>,
    first: FieldName,
    height: &mut u32,
) -> Result<List<TypeField>, Stop>
    ensures { Gets 1 (fields_behind first) cursor.old result cursor.new }
{
    let mut fields = List::new(alloc);
    let mut start = first;
    loop {
        let ty = any_type(alloc, nest, cursor, height)?;
        fields.push(field_of(start, ty))?;
        start = match next_field(alloc, cursor)? {
            Some(next) => next,
            None => return Ok(fields),
        };
    }
}
