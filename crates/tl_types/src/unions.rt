ghost use Rattle.std.specs.Prelude.{◌≡◌, ◌++◌, ◌||◌, true, false, map, flat_map, OnOk, IfOk};
ghost use Rattle.std.specs.List.{list_any};
ghost use Rattle.tl_types.specs.declared.types.TyError.TheVariants as ty_error;
ghost use Rattle.tl_types.specs.Types.{members};
ghost use Rattle.tl_types.specs.Sizes.{is_within};
ghost use Rattle.tl_types.specs.Same.{same_type};
ghost use Rattle.tl_types.specs.Unions.{is_any, is_value, is_int, is_str, is_covered_form, union_form, union_from, general_form, general_member, or_nil, tuple_place, results_place};
ghost use Rattle.tl_types.specs.Adding.{add_all};

use crate::equality::same;
use crate::sizes::of_type;
use crate::{NoMemory, Results, Tuple, Ty, TyError};
use std::alloc::Global;
use tl_base::List;

/// How many nodes a type may have, and how deep it may be.
const MOST_NODES: u64 = 65536;

const GREATEST_DEPTH: u64 = 100;

/// The union of types: flat, each member once, at the first one's place, and no literal beside its base type. With a member `any` it is `any`,
/// else with a member `value` it is `value`; one member alone is that type, and without a member it is `never`.
pub fn union_of(alloc: Global, members: &[Ty]) -> Result<Ty, TyError>
    ensures value { IfOk result (λ t. t ≡ union_form members.now) }
    ensures within { OnOk result (is_within (union_form members.now) ≡ true) }
    ensures large { result ≡ Err ty_error.TooLarge → is_within (union_form members.now) ≡ false }
{
    limited(united(alloc, members)?)
}

/// The general form of a type, which a local without annotation is declared with: each literal member becomes its base type, `true` and `false`
/// become `boolean`, and nothing inside a component changes.
pub fn general(alloc: Global, ty: &Ty) -> Result<Ty, TyError>
    ensures value { IfOk result (λ t. t ≡ general_form ty.now) }
    ensures within { OnOk result (is_within (general_form ty.now) ≡ true) }
    ensures large { result ≡ Err ty_error.TooLarge → is_within (general_form ty.now) ≡ false }
{
    let mut forms = Vec::new(alloc);
    push_general(alloc, ty, &mut forms)?;
    union_of(alloc, &forms)
}

/// The type at a place of results, counted from 0: the union over the tuples, without one `never`. A place past a tuple's list has the union of
/// its tail and `nil`.
pub fn position(alloc: Global, results: &Results, index: u32) -> Result<Ty, TyError>
    ensures value { IfOk result (λ t. t ≡ results_place results.now index) }
    ensures within { OnOk result (is_within (results_place results.now index) ≡ true) }
    ensures large { result ≡ Err ty_error.TooLarge → is_within (results_place results.now index) ≡ false }
{
    let mut places = Vec::new(alloc);
    for tuple in results.tuples.as_slice() {
        places.push(place(alloc, tuple, index)?)?;
    }
    union_of(alloc, &places)
}

/// The type `boolean`, the union of `true` and `false`.
pub fn boolean(alloc: Global) -> Result<Ty, NoMemory>
    ensures { IfOk result (λ t. t ≡ Rattle.tl_types.specs.Unions.boolean) }
{
    let mut members = List::new(alloc);
    members.push(Ty::True)?;
    members.push(Ty::False)?;
    Ok(Ty::Union(members))
}

// The type itself where it keeps within both limits.
fn limited(ty: Ty) -> Result<Ty, TyError>
    ensures value { IfOk result (λ t. t ≡ ty) }
    ensures within { OnOk result (is_within ty ≡ true) }
    ensures large { result ≡ Err ty_error.TooLarge → is_within ty ≡ false }
{
    let extent = of_type(&ty);
    if extent.nodes <= MOST_NODES && extent.depth <= GREATEST_DEPTH {
        Ok(ty)
    } else {
        Err(TyError::TooLarge)
    }
}

// The union of types, however large.
fn united(alloc: Global, types: &[Ty]) -> Result<Ty, NoMemory>
    ensures { IfOk result (λ t. t ≡ union_form types.now) }
{
    let seen = seen_in_all(types);
    if seen.any {
        return Ok(Ty::Any);
    }
    if seen.value {
        return Ok(Ty::Value);
    }
    let mut kept = Vec::new(alloc);
    for ty in types {
        gather(alloc, seen, ty, &mut kept)?;
    }
    Ok(from_members(kept))
}

// One member alone is that type.
fn from_members(kept: Vec<Ty>) -> Ty
    ensures { result ≡ union_from kept.items }
{
    let mut kept = kept;
    if kept.len() == 1 {
        if let Some(only) = kept.pop() {
            return only;
        }
    }
    Ty::Union(List::from_vec(kept))
}

// Which of the members that stand for others were seen.
#[derive(Clone, Copy)]
struct Seen {
    any: bool,
    value: bool,
    int: bool,
    str: bool,
}

#[tactic(auto, using(crate::proofs::Gathered::seen_more))]
fn seen_in_all(types: &[Ty]) -> Seen
    ensures any { result.any ≡ list_any is_any (flat_map members types.now) }
    ensures value { result.value ≡ list_any is_value (flat_map members types.now) }
    ensures int { result.int ≡ list_any is_int (flat_map members types.now) }
    ensures str { result.str ≡ list_any is_str (flat_map members types.now) }
{
    let mut seen = Seen {
        any: false,
        value: false,
        int: false,
        str: false,
    };
    for ty in types {
        seen = look(ty, seen);
    }
    seen
}

// What was seen before, and what stands among the members of a type.
#[tactic(auto, using(crate::proofs::Gathered::seen_more, crate::proofs::Members::members_union))]
fn look(ty: &Ty, seen: Seen) -> Seen
    ensures any { result.any ≡ (seen.any || list_any is_any (members ty.now)) }
    ensures value { result.value ≡ (seen.value || list_any is_value (members ty.now)) }
    ensures int { result.int ≡ (seen.int || list_any is_int (members ty.now)) }
    ensures str { result.str ≡ (seen.str || list_any is_str (members ty.now)) }
{
    match ty {
        Ty::Any => Seen { any: true, ..seen },
        Ty::Value => Seen {
            value: true,
            ..seen
        },
        Ty::Int => Seen { int: true, ..seen },
        Ty::Str => Seen { str: true, ..seen },
        Ty::Union(members) => {
            let mut seen = seen;
            for member in members.as_slice() {
                seen = look(member, seen);
            }
            seen
        }
        _ => seen,
    }
}

// Adds each member of a type that isn't covered and isn't there yet.
#[tactic(auto, using(crate::proofs::Gathered::add_more, crate::proofs::Members::members_union))]
fn gather(alloc: Global, seen: Seen, ty: &Ty, kept: &mut Vec<Ty>) -> Result<(), NoMemory>
    ensures { OnOk result (kept.new.items ≡ add_all seen.int seen.str kept.old.items (members ty.now)) }
{
    if let Ty::Union(members) = ty {
        for member in members.as_slice() {
            gather(alloc, seen, member, kept)?;
        }
        return Ok(());
    }
    let covered = match ty {
        Ty::IntLit(_) => seen.int,
        Ty::StrLit(_) => seen.str,
        _ => false,
    };
    if !covered && !contains(kept, ty) {
        kept.push(ty.copy(alloc)?)?;
    }
    Ok(())
}

fn contains(kept: &[Ty], ty: &Ty) -> bool
    ensures { result ≡ list_any (same_type ty.now) kept.now }
{
    for other in kept {
        if same(ty, other) {
            return true;
        }
    }
    false
}

// Adds the general form of each member.
#[tactic(auto, using(crate::proofs::Gathered::general_more, crate::proofs::Members::members_union))]
fn push_general(alloc: Global, ty: &Ty, forms: &mut Vec<Ty>) -> Result<(), NoMemory>
    ensures { OnOk result (forms.new.items ≡ forms.old.items ++ map general_member (members ty.now)) }
{
    if let Ty::Union(members) = ty {
        for member in members.as_slice() {
            push_general(alloc, member, forms)?;
        }
        return Ok(());
    }
    forms.push(general_alone(alloc, ty)?)?;
    Ok(())
}

fn general_alone(alloc: Global, ty: &Ty) -> Result<Ty, NoMemory>
    ensures { IfOk result (λ t. t ≡ general_member ty.now) }
{
    match ty {
        Ty::True | Ty::False => boolean(alloc),
        Ty::IntLit(_) => Ok(Ty::Int),
        Ty::StrLit(_) => Ok(Ty::Str),
        _ => ty.copy(alloc),
    }
}

// A tuple's place.
fn place(alloc: Global, tuple: &Tuple, index: u32) -> Result<Ty, NoMemory>
    ensures { IfOk result (λ t. t ≡ tuple_place tuple.now index) }
{
    match tuple.items.get(index as usize) {
        Some(ty) => ty.copy(alloc),
        None => with_nil(alloc, tuple.tail.get()),
    }
}

fn with_nil(alloc: Global, ty: &Ty) -> Result<Ty, NoMemory>
    ensures { IfOk result (λ t. t ≡ or_nil ty.now) }
{
    let both = [ty.copy(alloc)?, Ty::Nil];
    united(alloc, &both)
}
