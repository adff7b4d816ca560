ghost use Rattle.std.specs.Prelude.{◌≡◌, ◌+◌, map, Some, None, option_map, IfOk, IfSome};
ghost use Rattle.std.specs.Option.{option_and_then};
ghost use Rattle.tl_types.specs.declared.types.Ty.TheVariants as t;
ghost use Rattle.tl_types.specs.Parts.{size_tuple};
ghost use Rattle.tl_types.specs.Sizes.{is_within, type_size};
ghost use Rattle.tl_types.specs.Unions.{or_nil, union_form};
ghost use Rattle.type_reader.specs.Gathered.{Gathers, GathersMembers, IsCounted, nodes_of_types, nodes_of_fields, nodes_of_tuples, nodes_of_results, room_for};
ghost use Rattle.type_reader.specs.Types.{limited as limited_to, both, every, func_type, tuple_type, tail_or, record_of as record_of_written, body_of as body_of_written};
ghost use Rattle.type_reader.specs.Types.{type_of as type_of_written, field_of as field_of_written, fields_of as fields_of_written, results_of as results_of_written, tuple_of as tuple_of_written};
ghost use Rattle.type_reader.specs.Lookups.{names_in};

use crate::lookups::{BuiltIn, Found, Lookups};
use crate::members::Members;
use lua_tree::{TypeExpr, TypeField, TypeResults, TypeTuple};
use std::alloc::Global;
use tl_base::{Boxed, Bytes, List, NoMemory};
use tl_types::{Field, Func, Results, Text, Tuple, Ty, boolean, depth, size};

/// How many nodes a type may have, and how deep it may be.
pub const MOST_NODES: u64 = 65536;

pub const GREATEST_DEPTH: u64 = 100;

/// The type itself, where it keeps within both limits.
fn limited(ty: Ty) -> Option<Ty>
    ensures { result ≡ limited_to ty }
{
    if size(&ty) <= MOST_NODES && depth(&ty) <= GREATEST_DEPTH {
        Some(ty)
    } else {
        None
    }
}

fn optional_type(alloc: Global, ty: Option<Ty>) -> Result<Option<Ty>, NoMemory>
    ensures { IfOk result (λ r. r ≡ option_and_then (λ x. limited_to (or_nil x)) ty) }
{
    match ty {
        Some(ty) => with_nil(alloc, &ty),
        None => Ok(None),
    }
}

/// The union of a type with `nil`, where it keeps within both limits.
fn with_nil(alloc: Global, ty: &Ty) -> Result<Option<Ty>, NoMemory>
    ensures { IfOk result (λ r. r ≡ limited_to (or_nil ty.now)) }
{
    let mut members = Members::new(alloc);
    members.add(alloc, ty)?;
    members.add(alloc, &Ty::Nil)?;
    Ok(members.union_type())
}

/// The number of nodes with those of one type more, where the components of a type may have so many.
fn with_type(nodes: u64, ty: &Ty) -> Option<u64>
    ensures { result ≡ room_for (nodes + type_size ty.now) }
{
    let nodes = nodes.saturating_add(size(ty));
    if nodes < MOST_NODES {
        Some(nodes)
    } else {
        None
    }
}

/// The number of nodes with those of one tuple more, where the components of a type may have so many.
fn with_tuple(nodes: u64, tuple: &Tuple) -> Option<u64>
    ensures { result ≡ room_for (nodes + size_tuple tuple.now) }
{
    let mut all = with_type(nodes, tuple.tail.get())?;
    for ty in tuple.items.as_slice() {
        all = with_type(all, ty)?;
    }
    Some(all)
}

fn map_type(alloc: Global, key: Option<Ty>, value: Option<Ty>) -> Result<Option<Ty>, NoMemory>
    ensures { IfOk result (λ r. r ≡ option_and_then (λ m. m) (both (λ x y. limited_to (t.Map x y)) key value)) }
{
    match (key, value) {
        (Some(key), Some(value)) => map_of(alloc, key, value),
        _ => Ok(None),
    }
}

/// The map with these types, where it keeps within both limits.
fn map_of(alloc: Global, key: Ty, value: Ty) -> Result<Option<Ty>, NoMemory>
    ensures { IfOk result (λ r. r ≡ limited_to (t.Map key value)) }
{
    if with_type(size(&key), &value).is_none() {
        return Ok(None);
    }
    Ok(limited(Ty::Map(Boxed::new(alloc, key)?, Boxed::new(alloc, value)?)))
}

/// The record of these fields, where it keeps within both limits.
fn record_type(fields: Option<List<Field>>) -> Option<Ty>
    ensures { result ≡ option_and_then (λ gs. limited_to (t.Rec gs)) fields }
{
    match fields {
        Some(fields) => limited(Ty::Rec(fields)),
        None => None,
    }
}

/// The function with these parameters and results, where it keeps within both limits.
fn function_type(
    alloc: Global,
    params: Tuple,
    results: Option<Results>,
) -> Result<Option<Ty>, NoMemory>
    ensures { IfOk result (λ r. r ≡ option_and_then (λ x. limited_to (t.Func (func_type params x))) results) }
{
    match results {
        Some(results) => Ok(limited(Ty::Func(Boxed::new(alloc, Func { params, results })?))),
        None => Ok(None),
    }
}

fn tuple_type_of(
    alloc: Global,
    items: Option<List<Ty>>,
    tail: Option<Ty>,
) -> Result<Option<Tuple>, NoMemory>
    ensures { IfOk result (λ r. r ≡ both tuple_type items tail) }
{
    match (items, tail) {
        (Some(items), Some(tail)) => Ok(Some(Tuple {
            items,
            tail: Boxed::new(alloc, tail)?,
        })),
        _ => Ok(None),
    }
}

/// The type of a name.
fn named_type<'a>(
    alloc: Global,
    names: Lookups<'_, 'a>,
    parts: &'a [Bytes],
    name: &'a [u8],
) -> Result<Option<Ty>, NoMemory>
    ensures { IfOk result (λ r. r ≡ option_and_then limited_to ((names_in names.entry).ty parts.now name.now)) }
{
    match names.find(alloc, parts, name)? {
        Found::BuiltIn(BuiltIn::Boolean) => Ok(limited(boolean(alloc)?)),
        Found::BuiltIn(BuiltIn::Integer) => Ok(limited(Ty::Int)),
        Found::BuiltIn(BuiltIn::String) => Ok(limited(Ty::Str)),
        Found::BuiltIn(BuiltIn::Value) => Ok(limited(Ty::Value)),
        Found::BuiltIn(BuiltIn::Any) => Ok(limited(Ty::Any)),
        Found::Type(ty) => Ok(limited(ty.copy(alloc)?)),
        Found::Untyped | Found::Unknown => Ok(None),
    }
}

/// The type that is written. None where a name in it has no type, or where a type is too large.
#[cycle(building)]
pub fn type_of<'a>(
    alloc: Global,
    names: Lookups<'_, 'a>,
    e: &'a TypeExpr,
) -> Result<Option<Ty>, NoMemory>
    ensures { IfOk result (λ r. r ≡ type_of_written (names_in names.entry) e.now) }
{
    match e {
        TypeExpr::Nil(_) => Ok(Some(Ty::Nil)),
        TypeExpr::Bool(_, true) => Ok(Some(Ty::True)),
        TypeExpr::Bool(_, false) => Ok(Some(Ty::False)),
        TypeExpr::Int(_, n) => Ok(Some(Ty::IntLit(*n))),
        TypeExpr::Str(_, text) => Ok(Some(Ty::StrLit(Text::from_slice(alloc, text.as_slice())?))),
        TypeExpr::Named(_, parts, name) => {
            named_type(alloc, names, parts.as_slice(), name.as_slice())
        }
        TypeExpr::Paren(_, inner) => type_of(alloc, names, inner.get()),
        TypeExpr::Array(_, value) => {
            let value = type_of(alloc, names, value.get())?;
            map_type(alloc, Some(Ty::Int), value)
        }
        TypeExpr::Map(_, key, value) => {
            let key = type_of(alloc, names, key.get())?;
            let value = type_of(alloc, names, value.get())?;
            map_type(alloc, key, value)
        }
        TypeExpr::Record(_, fields) => record_of(alloc, names, fields.as_slice()),
        TypeExpr::Optional(_, inner) => {
            let ty = type_of(alloc, names, inner.get())?;
            optional_type(alloc, ty)
        }
        TypeExpr::Function(_, params, results) => {
            match tuple_of(alloc, names, params, Ty::Value)? {
                Some(params) => function_with(alloc, names, results, params),
                None => Ok(None),
            }
        }
        TypeExpr::Union(_, members) => union_of(alloc, names, members.as_slice()),
    }
}

/// The union of types, where it keeps within both limits.
#[cycle(building)]
fn union_of<'a>(
    alloc: Global,
    names: Lookups<'_, 'a>,
    types: &'a [TypeExpr],
) -> Result<Option<Ty>, NoMemory>
    ensures { IfOk result (λ r. r ≡ option_and_then (λ us. limited_to (union_form us)) (every (map (type_of_written (names_in names.entry)) types.now))) }
{
    match members_of(alloc, names, types)? {
        Some(members) => Ok(members.union_type()),
        None => Ok(None),
    }
}

#[cycle(building)]
fn members_of<'a>(
    alloc: Global,
    names: Lookups<'_, 'a>,
    types: &'a [TypeExpr],
) -> Result<Option<Members>, NoMemory>
    ensures gathered { IfOk result (λ r. GathersMembers (every (map (type_of_written (names_in names.entry)) types.now)) (option_map (λ m. m.kept) r)) }
    ensures counted { IfOk result (λ r. IfSome r (λ m. IsCounted m.kept m.nodes)) }
{
    let mut members = Members::new(alloc);
    for e in types {
        match type_of(alloc, names, e)? {
            Some(ty) => members.add(alloc, &ty)?,
            None => return Ok(None),
        }
    }
    Ok(Some(members))
}

/// Types in a row, as long as they may be the components of a type.
#[cycle(building)]
fn types_of<'a>(
    alloc: Global,
    names: Lookups<'_, 'a>,
    types: &'a [TypeExpr],
) -> Result<Option<List<Ty>>, NoMemory>
    ensures { IfOk result (λ r. Gathers nodes_of_types (every (map (type_of_written (names_in names.entry)) types.now)) r) }
{
    let mut read = List::new(alloc);
    let mut nodes = 0;
    for e in types {
        let Some(ty) = type_of(alloc, names, e)? else {
            return Ok(None);
        };
        let Some(more) = with_type(nodes, &ty) else {
            return Ok(None);
        };
        nodes = more;
        read.push(ty)?;
    }
    Ok(Some(read))
}

#[cycle(building)]
fn field_of<'a>(
    alloc: Global,
    names: Lookups<'_, 'a>,
    field: &'a TypeField,
) -> Result<Option<Field>, NoMemory>
    ensures { IfOk result (λ r. r ≡ field_of_written (names_in names.entry) field.now) }
{
    match type_of(alloc, names, &field.ty)? {
        Some(ty) => Ok(Some(Field {
            name: Text::from_slice(alloc, field.name.text.as_slice())?,
            is_const: field.is_const,
            ty,
        })),
        None => Ok(None),
    }
}

/// The record of a type or of an interface, where it keeps within both limits.
#[cycle(building)]
pub fn record_of<'a>(
    alloc: Global,
    names: Lookups<'_, 'a>,
    fields: &'a [TypeField],
) -> Result<Option<Ty>, NoMemory>
    ensures { IfOk result (λ r. r ≡ record_of_written (names_in names.entry) fields.now) }
{
    Ok(record_type(fields_of(alloc, names, fields)?))
}

/// Fields, as long as they may be those of a record.
#[cycle(building)]
pub fn fields_of<'a>(
    alloc: Global,
    names: Lookups<'_, 'a>,
    fields: &'a [TypeField],
) -> Result<Option<List<Field>>, NoMemory>
    ensures { IfOk result (λ r. Gathers nodes_of_fields (fields_of_written (names_in names.entry) fields.now) r) }
{
    let mut read = List::new(alloc);
    let mut nodes = 0;
    for field in fields {
        let Some(field) = field_of(alloc, names, field)? else {
            return Ok(None);
        };
        let Some(more) = with_type(nodes, &field.ty) else {
            return Ok(None);
        };
        nodes = more;
        read.push(field)?;
    }
    Ok(Some(read))
}

/// The tail of a tuple, or this one where none is written.
#[cycle(building)]
fn tail_of<'a>(
    alloc: Global,
    names: Lookups<'_, 'a>,
    tail: &'a Option<Boxed<TypeExpr>>,
    absent: Ty,
) -> Result<Option<Ty>, NoMemory>
    ensures { IfOk result (λ r. r ≡ tail_or absent (option_map (type_of_written (names_in names.entry)) tail.now)) }
{
    match tail {
        Some(tail) => type_of(alloc, names, tail.get()),
        None => Ok(Some(absent)),
    }
}

/// A tuple, which has this tail where none is written. None too where its list has too many nodes.
#[cycle(building)]
fn tuple_of<'a>(
    alloc: Global,
    names: Lookups<'_, 'a>,
    tuple: &'a TypeTuple,
    absent: Ty,
) -> Result<Option<Tuple>, NoMemory>
    ensures { IfOk result (λ r. Gathers size_tuple (tuple_of_written (names_in names.entry) tuple.now absent) r) }
{
    let items = types_of(alloc, names, tuple.items.as_slice())?;
    let tail = tail_of(alloc, names, &tuple.tail, absent)?;
    tuple_type_of(alloc, items, tail)
}

/// Tuples, as long as they may be components of a type beside so many nodes.
#[cycle(building)]
fn tuples_of<'a>(
    alloc: Global,
    names: Lookups<'_, 'a>,
    tuples: &'a [TypeTuple],
    nodes: u64,
) -> Result<Option<List<Tuple>>, NoMemory>
    ensures { IfOk result (λ r. Gathers (nodes_of_tuples nodes) (every (map (λ p. p t.Nil) (map (tuple_of_written (names_in names.entry)) tuples.now))) r) }
{
    let mut read = List::new(alloc);
    let mut nodes = nodes;
    for tuple in tuples {
        let Some(tuple) = tuple_of(alloc, names, tuple, Ty::Nil)? else {
            return Ok(None);
        };
        let Some(more) = with_tuple(nodes, &tuple) else {
            return Ok(None);
        };
        nodes = more;
        read.push(tuple)?;
    }
    Ok(Some(read))
}

/// The results of a function, as long as they may stand beside parameters of so many nodes.
#[cycle(building)]
fn results_of<'a>(
    alloc: Global,
    names: Lookups<'_, 'a>,
    results: &'a TypeResults,
    nodes: u64,
) -> Result<Option<Results>, NoMemory>
    ensures { IfOk result (λ r. Gathers (nodes_of_results nodes) (results_of_written (names_in names.entry) results.now) r) }
{
    match tuples_of(alloc, names, results.tuples.as_slice(), nodes)? {
        Some(tuples) => Ok(Some(Results { tuples })),
        None => Ok(None),
    }
}

/// The function with these results and parameters, where it keeps within both limits.
#[cycle(building)]
fn function_with<'a>(
    alloc: Global,
    names: Lookups<'_, 'a>,
    results: &'a TypeResults,
    params: Tuple,
) -> Result<Option<Ty>, NoMemory>
    ensures { IfOk result (λ r. r ≡ option_and_then (λ x. limited_to (t.Func (func_type params x))) (results_of_written (names_in names.entry) results.now)) }
{
    match with_tuple(0, &params) {
        Some(nodes) => {
            let results = results_of(alloc, names, results, nodes)?;
            function_type(alloc, params, results)
        }
        None => Ok(None),
    }
}

/// The type that stands for the results of a body: a function that has no listed parameter, and takes every value.
pub fn body_of<'a>(
    alloc: Global,
    names: Lookups<'_, 'a>,
    results: &'a TypeResults,
) -> Result<Option<Ty>, NoMemory>
    ensures { IfOk result (λ r. r ≡ body_of_written (names_in names.entry) results.now) }
{
    let params = Tuple {
        items: List::new(alloc),
        tail: Boxed::new(alloc, Ty::Value)?,
    };
    function_with(alloc, names, results, params)
}
