ghost use Rattle.std.specs.Prelude.{◌≡◌, not, map, IfOk};
ghost use Rattle.std.specs.List.{list_all};
ghost use Rattle.tl_base.specs.declared.refusal.Failure.TheVariants as failure;
ghost use Rattle.tl_base.specs.declared.refusal.RefusalCode.TheVariants as code;
ghost use Rattle.type_reader.specs.Names.{Names};
ghost use Rattle.type_reader.specs.Faults.{at, fault_where, first_of, key_fault, type_fault, told_of, record_fault, results_fault, tuple_fault};
ghost use Rattle.type_reader.specs.Faults.{is_key as is_key_of, is_key_name as is_key_name_of};
ghost use Rattle.type_reader.specs.Answers.{Answers};
ghost use Rattle.type_reader.specs.Lookups.{built_in_type, names_in};

use crate::lookups::{BuiltIn, Found, Lookups};
use crate::own_names::OwnNames;
use lua_tree::{TypeExpr, TypeField, TypeResults, TypeTuple};
use std::alloc::Global;
use tl_base::{Bytes, Failure, NoMemory, Pos, Refusal, RefusalCode};
use tl_types::Ty;

/// Whether a type is a union of `integer`, `string`, `boolean` and literals.
#[tactic(auto, using(crate::proofs::Keys::key_union))]
fn is_key_type(ty: &Ty) -> bool
    ensures { result ≡ is_key_of ty.now }
{
    match ty {
        Ty::True | Ty::False | Ty::Int | Ty::IntLit(_) | Ty::Str | Ty::StrLit(_) => true,
        Ty::Union(members) => {
            for member in members.as_slice() {
                if !is_key_type(member) {
                    return false;
                }
            }
            true
        }
        _ => false,
    }
}

/// The refusal with this code at this place.
pub fn refused(code: RefusalCode, pos: Pos) -> Failure
    ensures { result ≡ failure.Refused (at code pos) }
{
    Failure::Refused(Refusal { code, pos })
}

/// The place of a type's first token.
pub fn place_of(e: &TypeExpr) -> Pos
    ensures { (ns : Names) → result ≡ (told_of ns e.now).place }
{
    match e {
        TypeExpr::Nil(pos)
        | TypeExpr::Bool(pos, _)
        | TypeExpr::Int(pos, _)
        | TypeExpr::Str(pos, _)
        | TypeExpr::Named(pos, _, _)
        | TypeExpr::Paren(pos, _)
        | TypeExpr::Array(pos, _)
        | TypeExpr::Map(pos, _, _)
        | TypeExpr::Record(pos, _)
        | TypeExpr::Optional(pos, _)
        | TypeExpr::Function(pos, _, _)
        | TypeExpr::Union(pos, _) => *pos,
    }
}

/// Whether a built-in type may be a key type.
#[tactic(auto, using(crate::proofs::Keys::key_boolean))]
fn is_key_built_in(built_in: BuiltIn) -> bool
    ensures { result ≡ is_key_of (built_in_type built_in) }
{
    match built_in {
        BuiltIn::Boolean => true,
        BuiltIn::Integer => true,
        BuiltIn::String => true,
        BuiltIn::Value => false,
        BuiltIn::Any => false,
    }
}

/// Whether a name may be that of a key type. A name without a type has its fault elsewhere.
fn is_key_name<'a>(
    alloc: Global,
    names: Lookups<'_, 'a>,
    parts: &'a [Bytes],
    name: &'a [u8],
) -> Result<bool, NoMemory>
    ensures { IfOk result (λ b. b ≡ is_key_name_of ((names_in names.entry).ty parts.now name.now)) }
{
    match names.find(alloc, parts, name)? {
        Found::BuiltIn(built_in) => Ok(is_key_built_in(built_in)),
        Found::Type(ty) => Ok(is_key_type(ty)),
        Found::Untyped | Found::Unknown => Ok(true),
    }
}

/// Whether a type that is written may be a key type.
#[cycle(keys)]
fn is_key<'a>(alloc: Global, names: Lookups<'_, 'a>, e: &'a TypeExpr) -> Result<bool, NoMemory>
    ensures { IfOk result (λ b. b ≡ (told_of (names_in names.entry) e.now).key) }
{
    match e {
        TypeExpr::Bool(_, _) | TypeExpr::Int(_, _) | TypeExpr::Str(_, _) => Ok(true),
        TypeExpr::Named(_, parts, name) => {
            is_key_name(alloc, names, parts.as_slice(), name.as_slice())
        }
        TypeExpr::Paren(_, inner) => is_key(alloc, names, inner.get()),
        TypeExpr::Union(_, members) => are_keys(alloc, names, members.as_slice()),
        _ => Ok(false),
    }
}

#[cycle(keys)]
fn are_keys<'a>(
    alloc: Global,
    names: Lookups<'_, 'a>,
    types: &'a [TypeExpr],
) -> Result<bool, NoMemory>
    ensures { IfOk result (λ b. b ≡ list_all (λ t. t.key) (map (told_of (names_in names.entry)) types.now)) }
{
    for e in types {
        if !is_key(alloc, names, e)? {
            return Ok(false);
        }
    }
    Ok(true)
}

/// Whether a name is known.
fn check_name<'a>(
    alloc: Global,
    names: Lookups<'_, 'a>,
    pos: Pos,
    parts: &'a [Bytes],
    name: &'a [u8],
) -> Result<(), Failure>
    ensures { Answers (fault_where (not ((names_in names.entry).has parts.now name.now)) code.Y2 pos) result }
{
    match names.find(alloc, parts, name)? {
        Found::Unknown => Err(refused(RefusalCode::Y2, pos)),
        _ => Ok(()),
    }
}

/// The first fault of a type that is written, its size aside.
#[cycle(checking)]
pub fn check_type<'a>(alloc: Global, names: Lookups<'_, 'a>, e: &'a TypeExpr) -> Result<(), Failure>
    ensures { Answers (type_fault (names_in names.entry) e.now) result }
{
    match e {
        TypeExpr::Nil(_) | TypeExpr::Bool(_, _) | TypeExpr::Int(_, _) | TypeExpr::Str(_, _) => {
            Ok(())
        }
        TypeExpr::Named(pos, parts, name) => {
            check_name(alloc, names, *pos, parts.as_slice(), name.as_slice())
        }
        TypeExpr::Paren(_, inner) | TypeExpr::Array(_, inner) | TypeExpr::Optional(_, inner) => {
            check_type(alloc, names, inner.get())
        }
        TypeExpr::Map(_, key, value) => {
            check_key(alloc, names, key.get())?;
            check_type(alloc, names, value.get())
        }
        TypeExpr::Record(_, fields) => check_fields(alloc, names, fields.as_slice()),
        TypeExpr::Function(_, params, results) => {
            check_tuple(alloc, names, params)?;
            check_results(alloc, names, results)
        }
        TypeExpr::Union(_, members) => check_types(alloc, names, members.as_slice()),
    }
}

/// The first fault of a key's type.
#[cycle(checking)]
fn check_key<'a>(alloc: Global, names: Lookups<'_, 'a>, e: &'a TypeExpr) -> Result<(), Failure>
    ensures { Answers (key_fault (told_of (names_in names.entry) e.now)) result }
{
    check_type(alloc, names, e)?;
    if is_key(alloc, names, e)? {
        Ok(())
    } else {
        Err(refused(RefusalCode::Y4, place_of(e)))
    }
}

#[cycle(checking)]
fn check_types<'a>(
    alloc: Global,
    names: Lookups<'_, 'a>,
    types: &'a [TypeExpr],
) -> Result<(), Failure>
    ensures { Answers (first_of (map (λ t. t.fault) (map (told_of (names_in names.entry)) types.now))) result }
{
    for e in types {
        check_type(alloc, names, e)?;
    }
    Ok(())
}

/// The first fault of fields.
#[cycle(checking)]
pub fn check_fields<'a>(
    alloc: Global,
    names: Lookups<'_, 'a>,
    fields: &'a [TypeField],
) -> Result<(), Failure>
    ensures { Answers (record_fault (names_in names.entry) fields.now) result }
{
    let mut before = OwnNames::new(alloc);
    for field in fields {
        if !before.add(field.name.text.as_slice())? {
            return Err(refused(RefusalCode::Y3, field.pos));
        }
        check_type(alloc, names, &field.ty)?;
    }
    Ok(())
}

#[cycle(checking)]
fn check_tuple<'a>(
    alloc: Global,
    names: Lookups<'_, 'a>,
    tuple: &'a TypeTuple,
) -> Result<(), Failure>
    ensures { Answers (tuple_fault (names_in names.entry) tuple.now) result }
{
    check_types(alloc, names, tuple.items.as_slice())?;
    match &tuple.tail {
        Some(tail) => check_type(alloc, names, tail.get()),
        None => Ok(()),
    }
}

/// The first fault of results.
#[cycle(checking)]
pub fn check_results<'a>(
    alloc: Global,
    names: Lookups<'_, 'a>,
    results: &'a TypeResults,
) -> Result<(), Failure>
    ensures { Answers (results_fault (names_in names.entry) results.now) result }
{
    for tuple in results.tuples.as_slice() {
        check_tuple(alloc, names, tuple)?;
    }
    Ok(())
}
