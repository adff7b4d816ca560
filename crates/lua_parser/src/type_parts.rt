ghost use Rattle.std.specs.Prelude.{◌≡◌, ◌++◌, ◌∷◌, [], ℕ, Bool, Some, None, Ok, IfErr, IfOk, ◌+◌, false, true, codes, List as Seq};
ghost use Rattle.std.specs.Int.{w64, int_wrap};
ghost use Rattle.lua_tree.specs.declared.annotation.TypeExpr.TheVariants as t;
ghost use Rattle.lua_tree.specs.declared.annotation.TypeField.{TypeField};
ghost use Rattle.lua_parser.specs.declared.cursor.Stop.TheVariants as stop;
ghost use Rattle.lua_parser.specs.declared.type_parts.After.TheVariants as after;
ghost use Rattle.lua_lexer.specs.declared.token.Symbol.TheVariants as s;
ghost use Rattle.lua_parser.specs.Words.{Words, sign};
ghost use Rattle.lua_parser.specs.Grammar.Types.{place, tuple, results, field};
ghost use Rattle.lua_parser.specs.Machine.Plan.{Item, read};
ghost use Rattle.lua_parser.specs.Machine.Steps.{is_text, single_result};
ghost use Rattle.lua_parser.specs.Outcomes.{head_is};
ghost use Rattle.lua_parser.specs.TypeReadings.{NoType, Refuses, member_of, after_of, joined_by, Turns, Gets, ReadsPart, Stays, Meets, NoBar, EatsName, rest_of_name, end_of_array, next_of_fields, type_of_field, Encloses, Builds, ReadsNamed};

use crate::cursor::{Cursor, Stop};
use crate::limits::{DEEPEST, HIGHEST};
use lua_lexer::{Keyword, Symbol};
use lua_tree::{Name, TypeExpr, TypeField, TypeResults, TypeTuple};
use std::alloc::Global;
use std::cmp::max;
use tl_base::{Boxed, List, NoMemory, Pos};

/// What is open where a type is read.
#[derive(Clone, Copy, Debug, PartialEq, Eq)]
pub(crate) struct Nest {
    /// How many constructs are open.
    pub(crate) depth: u32,
    /// How many results without parentheses are open.
    pub(crate) chain: u32,
}

impl Nest {
    /// Inside one more construct, which goes on with a type or one of these symbols.
    pub(crate) fn inside(
        self,
        cursor: &Cursor<'_>,
        symbol: Symbol,
        other: Symbol,
    ) -> Result<Nest, Stop>
        ensures { IfErr result (Refuses symbol other cursor.now) }
    {
        if self.depth >= DEEPEST {
            return Err(refusal(cursor, symbol, other));
        }
        Ok(Nest {
            depth: self.depth + 1,
            chain: self.chain,
        })
    }

    /// Inside results without parentheses.
    pub(crate) fn in_results(self) -> Result<Nest, Stop>
        ensures { IfErr result (λ e. e ≡ stop.Deep) }
    {
        if self.chain >= HIGHEST {
            return Err(Stop::Deep);
        }
        Ok(Nest {
            depth: self.depth,
            chain: self.chain + 1,
        })
    }
}

/// Why no further construct is begun: no spelling goes on, or the first token is too deep.
fn refusal(cursor: &Cursor<'_>, symbol: Symbol, other: Symbol) -> Stop
    ensures { Refuses symbol other cursor.now result }
{
    if cursor.at(symbol) {
        return Stop::Deep;
    }
    if cursor.at(other) {
        return Stop::Deep;
    }
    if begins_type(cursor) {
        return Stop::Deep;
    }
    Stop::Unexpected
}

/// Whether a type begins at the first token.
fn begins_type(cursor: &Cursor<'_>) -> bool
    ensures { result ≡ false → NoType cursor.now }
{
    if cursor.at_atom() {
        return true;
    }
    if cursor.at_word(Keyword::Nil) {
        return true;
    }
    if cursor.at_word(Keyword::True) {
        return true;
    }
    if cursor.at_word(Keyword::False) {
        return true;
    }
    if cursor.at(Symbol::Minus) {
        return true;
    }
    if cursor.at(Symbol::OpenBrace) {
        return true;
    }
    if cursor.at(Symbol::OpenParen) {
        return true;
    }
    false
}

/// How a member of a union ended: in itself, or as a function type in a tuple of its results or in results that are a type.
/// Behind a tuple of results and `|` that no `(` follows, the `|` is already taken.
#[derive(Clone, Copy, Debug, PartialEq, Eq)]
pub(crate) enum After {
    InItself,
    InTuple,
    InType,
    Joined,
}

/// What stands before one more member of a union, or that none follows.
#[derive(Clone, Copy, Debug, PartialEq, Eq)]
pub(crate) enum Join {
    Over,
    /// a member that begins with no `(`
    Plain,
    Member,
}

/// A member of a union.
#[derive(Drop)]
pub(crate) struct Member {
    pub(crate) ty: TypeExpr,
    pub(crate) after: After,
}

/// The types of a tuple.
#[derive(Drop)]
pub(crate) struct Items {
    pub(crate) items: List<TypeExpr>,
    pub(crate) tail: Option<Boxed<TypeExpr>>,
}

/// The results of a function type, and how they ended.
#[derive(Drop)]
pub(crate) struct Returned {
    pub(crate) results: TypeResults,
    pub(crate) after: After,
}

/// A field as far as it stands before its type.
#[derive(Drop)]
pub(crate) struct FieldName {
    /// that of its first token
    pub(crate) pos: Pos,
    pub(crate) is_const: bool,
    pub(crate) name: Name,
}

/// What a name turned out to be: a field's, or any other.
#[derive(Drop)]
pub(crate) enum Named {
    Field(FieldName),
    Other(Name),
}

/// The place of a type's first token.
pub(crate) fn place(ty: &TypeExpr) -> Pos
    ensures { result ≡ place ty.now }
{
    match ty {
        TypeExpr::Nil(pos) => *pos,
        TypeExpr::Bool(pos, _) => *pos,
        TypeExpr::Int(pos, _) => *pos,
        TypeExpr::Str(pos, _) => *pos,
        TypeExpr::Named(pos, _, _) => *pos,
        TypeExpr::Paren(pos, _) => *pos,
        TypeExpr::Array(pos, _) => *pos,
        TypeExpr::Map(pos, _, _) => *pos,
        TypeExpr::Record(pos, _) => *pos,
        TypeExpr::Optional(pos, _) => *pos,
        TypeExpr::Function(pos, _, _) => *pos,
        TypeExpr::Union(pos, _) => *pos,
    }
}

/// Takes this symbol, if it is the first token. There has to be a first token.
pub(crate) fn meets(cursor: &mut Cursor<'_>, symbol: Symbol) -> Result<bool, Stop>
    ensures { Meets (sign symbol) cursor.old result cursor.new }
{
    if cursor.is_over() {
        return Err(Stop::Unexpected);
    }
    Ok(cursor.eat(symbol))
}

/// Takes the first token, if it is a name, and copies its text.
pub(crate) fn maybe_name(alloc: Global, cursor: &mut Cursor<'_>) -> Result<Option<Name>, Stop>
    ensures { EatsName cursor.old result cursor.new }
{
    match cursor.name(alloc) {
        Ok(name) => Ok(Some(name)),
        Err(Stop::Unexpected) => Ok(None),
        Err(stop) => Err(stop),
    }
}

/// Notes that a type ends whose highest part has this height. Of a type that is too high the last token is left.
pub(crate) fn closes(cursor: &mut Cursor<'_>, height: &mut u32, inner: u32) -> Result<(), Stop>
    ensures { Stays cursor.old result cursor.new }
{
    if inner >= HIGHEST {
        cursor.back();
        return Err(Stop::Deep);
    }
    *height = max(*height, inner + 1);
    Ok(())
}

/// Reads on behind a member of a union that ended so, up to the next one.
pub(crate) fn joins(cursor: &mut Cursor<'_>, after: After) -> Result<Join, Stop>
    ensures { Turns (λ v. 0) (read (Item.more_of_union (after_of after))) joined_by cursor.old result cursor.new }
{
    match after {
        After::Joined => Ok(Join::Plain),
        After::InItself => {
            if meets(cursor, Symbol::Pipe)? {
                Ok(Join::Member)
            } else {
                Ok(Join::Over)
            }
        }
        After::InTuple => closed(cursor),
        After::InType => closed(cursor),
    }
}

/// The end of a union, where no further member can follow.
fn closed(cursor: &Cursor<'_>) -> Result<Join, Stop>
    ensures { NoBar cursor.now result }
{
    if cursor.is_over() {
        return Err(Stop::Unexpected);
    }
    if cursor.at(Symbol::Pipe) {
        return Err(Stop::Unexpected);
    }
    Ok(Join::Over)
}

/// Notes that a function type ends whose highest part has this height. Of one that is too high the last token is left,
/// which stands before a `|` if that is taken already.
pub(crate) fn ends_function(
    cursor: &mut Cursor<'_>,
    height: &mut u32,
    inner: u32,
    after: After,
) -> Result<(), Stop>
    ensures { Stays cursor.old result cursor.new }
{
    if inner >= HIGHEST {
        cursor.back();
        if after == After::Joined {
            cursor.back();
        }
        return Err(Stop::Deep);
    }
    *height = max(*height, inner + 1);
    Ok(())
}

/// The rest of a dotted name.
pub(crate) fn dotted(alloc: Global, cursor: &mut Cursor<'_>, first: Name) -> Result<TypeExpr, Stop>
    ensures { Gets 0 (rest_of_name first) cursor.old result cursor.new }
{
    let Name { pos, text } = first;
    let mut parts = List::new(alloc);
    let mut last = text;
    while meets(cursor, Symbol::Dot)? {
        let next = cursor.name(alloc)?;
        parts.push(last)?;
        last = next.text;
    }
    Ok(TypeExpr::Named(pos, parts, last))
}

/// A type with no type in it.
#[tactic(none)]
pub(crate) fn literal(alloc: Global, cursor: &mut Cursor<'_>) -> Result<TypeExpr, Stop>
    ensures { head_is (sign s.OpenBrace) cursor.old ≡ false → Turns (λ v. 1) (read Item.a_plain_member) (λ v k. read (Item.maybe_mark v) k) cursor.old result cursor.new }
{
    let pos = cursor.pos();
    if cursor.eat_word(Keyword::Nil) {
        return Ok(TypeExpr::Nil(pos));
    }
    if cursor.eat_word(Keyword::True) {
        return Ok(TypeExpr::Bool(pos, true));
    }
    if cursor.eat_word(Keyword::False) {
        return Ok(TypeExpr::Bool(pos, false));
    }
    if cursor.eat(Symbol::Minus) {
        return negative(cursor, pos);
    }
    if let Some(number) = cursor.number() {
        cursor.advance();
        return Ok(TypeExpr::Int(pos, number));
    }
    if let Some(text) = cursor.text(alloc)? {
        return Ok(TypeExpr::Str(pos, text));
    }
    let name = cursor.name(alloc)?;
    dotted(alloc, cursor, name)
}

/// The integer behind a minus, which stood at `pos`.
#[tactic(none)]
fn negative(cursor: &mut Cursor<'_>, pos: Pos) -> Result<TypeExpr, Stop>
    ensures { ReadsPart 1 (Item.negated pos) (λ v. v) cursor.old result cursor.new }
{
    match cursor.number() {
        Some(number) => {
            cursor.advance();
            Ok(TypeExpr::Int(pos, number.wrapping_neg()))
        }
        None => Err(Stop::Unexpected),
    }
}

/// A type, or the same as an optional type if `?` follows. `height` is that of the type.
pub(crate) fn marked(
    alloc: Global,
    cursor: &mut Cursor<'_>,
    ty: TypeExpr,
    height: &mut u32,
) -> Result<TypeExpr, Stop>
    ensures { ReadsPart 0 (Item.maybe_mark ty) (λ v. v) cursor.old result cursor.new }
{
    if !meets(cursor, Symbol::Question)? {
        return Ok(ty);
    }
    let inner = *height;
    closes(cursor, height, inner)?;
    let pos = place(&ty);
    Ok(TypeExpr::Optional(pos, Boxed::new(alloc, ty)?))
}

/// The type in parentheses, where one type stands in them and nothing else.
#[tactic(none)]
pub(crate) fn enclosed(alloc: Global, pos: Pos, inside: Items) -> Result<TypeExpr, Stop>
    ensures { Encloses pos inside result }
{
    let Items { items, tail } = inside;
    if tail.is_some() {
        return Err(Stop::Unexpected);
    }
    if items.len() != 1 {
        return Err(Stop::Unexpected);
    }
    let mut types = items.into_vec();
    match types.pop() {
        Some(ty) => Ok(TypeExpr::Paren(pos, Boxed::new(alloc, ty)?)),
        None => Err(Stop::Unexpected),
    }
}

/// The rest of a member that is a type in parentheses, whose `)` is taken. `inner` is the height of what stands in them.
pub(crate) fn parenthesised(
    alloc: Global,
    cursor: &mut Cursor<'_>,
    pos: Pos,
    inside: Items,
    height: &mut u32,
    inner: u32,
) -> Result<Member, Stop>
    ensures { Meets (sign s.Arrow) cursor.old (Ok false) cursor.old → Turns (λ v. 0) (read (Item.behind_tuple pos inside.items inside.tail)) (λ v k. k (member_of v)) cursor.old result cursor.new }
{
    let ty = enclosed(alloc, pos, inside)?;
    let mut own = 0;
    closes(cursor, &mut own, inner)?;
    let ty = marked(alloc, cursor, ty, &mut own)?;
    *height = max(*height, own);
    Ok(Member {
        ty,
        after: After::InItself,
    })
}

/// The function type of these parts.
pub(crate) fn function(pos: Pos, inside: Items, returned: Returned) -> Member
    ensures { member_of result ≡ (t.Function pos (tuple inside.items inside.tail) returned.results, after_of returned.after) }
{
    Member {
        ty: TypeExpr::Function(pos, tuple_of(inside), returned.results),
        after: returned.after,
    }
}

/// The tuple of these types.
pub(crate) fn tuple_of(types: Items) -> TypeTuple
    ensures { result ≡ tuple types.items types.tail }
{
    TypeTuple {
        items: types.items,
        tail: types.tail,
    }
}

/// The field of a name and a type.
pub(crate) fn field_of(start: FieldName, ty: TypeExpr) -> TypeField
    ensures { result ≡ field start.pos start.is_const start.name ty }
{
    TypeField {
        pos: start.pos,
        is_const: start.is_const,
        name: start.name,
        ty,
    }
}

/// The end of `{type}`. `inner` is the type's height.
pub(crate) fn array(
    alloc: Global,
    cursor: &mut Cursor<'_>,
    pos: Pos,
    ty: TypeExpr,
    height: &mut u32,
    inner: u32,
) -> Result<TypeExpr, Stop>
    ensures { Gets 1 (end_of_array pos ty) cursor.old result cursor.new }
{
    cursor.want(Symbol::CloseBrace)?;
    closes(cursor, height, inner)?;
    Ok(TypeExpr::Array(pos, Boxed::new(alloc, ty)?))
}

/// The map type from keys to values of these types.
pub(crate) fn map_type(
    alloc: Global,
    pos: Pos,
    key: TypeExpr,
    value: TypeExpr,
) -> Result<TypeExpr, NoMemory>
    ensures { IfOk result (λ v. v ≡ t.Map pos key value) }
{
    Ok(TypeExpr::Map(pos, Boxed::new(alloc, key)?, Boxed::new(alloc, value)?))
}

/// The results that are one type without parentheses.
pub(crate) fn single(alloc: Global, ty: TypeExpr) -> Result<TypeResults, NoMemory>
    ensures { IfOk result (λ v. v ≡ single_result ty) }
{
    let pos = place(&ty);
    let mut items = List::new(alloc);
    items.push(ty)?;
    let mut tuples = List::new(alloc);
    tuples.push(TypeTuple { items, tail: None })?;
    Ok(TypeResults { pos, tuples })
}

/// Two types in a row.
pub(crate) fn pair(
    alloc: Global,
    first: TypeExpr,
    second: TypeExpr,
) -> Result<List<TypeExpr>, NoMemory>
    ensures { IfOk result (λ v. v ≡ first ∷ second ∷ []) }
{
    let mut types = List::new(alloc);
    types.push(first)?;
    types.push(second)?;
    Ok(types)
}

/// Reads on behind a name that may begin a field: up to the field's type, or nothing.
pub(crate) fn field_or_other(
    alloc: Global,
    cursor: &mut Cursor<'_>,
    name: Name,
) -> Result<Named, Stop>
    ensures { ReadsNamed name cursor.old result cursor.new }
{
    if cursor.eat(Symbol::Colon) {
        return Ok(Named::Field(FieldName {
            pos: name.pos,
            is_const: false,
            name,
        }));
    }
    if !is_const(&name) {
        return Ok(Named::Other(name));
    }
    match maybe_name(alloc, cursor)? {
        Some(second) => {
            cursor.want(Symbol::Colon)?;
            Ok(Named::Field(FieldName {
                pos: name.pos,
                is_const: true,
                name: second,
            }))
        }
        None => Ok(Named::Other(name)),
    }
}

/// Whether a name's text is `const`.
fn is_const(name: &Name) -> bool
    ensures { result ≡ is_text name.now.text (codes "const") }
{
    name.text.as_slice() == b"const".as_slice()
}

/// Reads a field up to its type, behind its first name.
pub(crate) fn field_name(
    alloc: Global,
    cursor: &mut Cursor<'_>,
    name: Name,
) -> Result<FieldName, Stop>
    ensures { Turns (λ v. 1) (read (Item.rest_of_field name)) type_of_field cursor.old result cursor.new }
{
    match field_or_other(alloc, cursor, name)? {
        Named::Field(field) => Ok(field),
        Named::Other(_name) => Err(Stop::Unexpected),
    }
}

/// Reads on behind a field of a record: the next one up to its type, or the record's end.
pub(crate) fn next_field(alloc: Global, cursor: &mut Cursor<'_>) -> Result<Option<FieldName>, Stop>
    ensures { Turns (λ v. 1) (read Item.more_of_fields) next_of_fields cursor.old result cursor.new }
{
    if !cursor.eat(Symbol::Comma) {
        cursor.want(Symbol::CloseBrace)?;
        return Ok(None);
    }
    if cursor.eat(Symbol::CloseBrace) {
        return Ok(None);
    }
    let name = cursor.name(alloc)?;
    let field = field_name(alloc, cursor, name)?;
    Ok(Some(field))
}
