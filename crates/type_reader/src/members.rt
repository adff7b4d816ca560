ghost use Rattle.std.specs.Prelude.{◌≡◌, [], ◌∷◌, ◌++◌, ◌||◌, ◌-◌, ◌^◌, ◌≤◌, cond, flat_map, min, OnOk};
ghost use Rattle.std.specs.List.{list_any};
ghost use Rattle.tl_types.specs.Same.{same_type};
ghost use Rattle.tl_types.specs.Sizes.{type_size};
ghost use Rattle.tl_types.specs.Types.{members};
ghost use Rattle.tl_types.specs.Unions.{distinct, is_any, is_value, union_form, union_from};
ghost use Rattle.type_reader.specs.Gathered.{IsCounted, StandFor, lasts, uncovered};
ghost use Rattle.type_reader.specs.Types.{limited};

use crate::building::{GREATEST_DEPTH, MOST_NODES};
use crate::union_sizes::{Kinds, kinds_of, union_size};
use std::alloc::Global;
use tl_base::{List, NoMemory};
use tl_types::{Ty, depth, same, size};

/// Members of a union, which stand for all that were added: each once, and where they have too many nodes no more of them than the union's type hangs on.
#[derive(Drop)]
pub struct Members {
    pub kept: List<Ty>,
    /// how many nodes they have, literals aside, which a base type that follows may cover
    pub nodes: u64,
}

fn contains(kept: &[Ty], ty: &Ty) -> bool
    ensures { result ≡ list_any (same_type ty.now) kept.now }
{
    for other in kept {
        if same(ty, other) {
            return true;
        }
    }
    false
}

/// Whether a type takes the place of all other members of a union.
fn absorbs(ty: &Ty) -> bool
    ensures { result ≡ (is_any ty.now || is_value ty.now) }
{
    matches!(ty, Ty::Any | Ty::Value)
}

/// How many nodes a type has, and none where another one may cover it.
fn nodes_that_last(ty: &Ty) -> u64
    ensures { result ≡ (cond (lasts ty.now) (min (type_size ty.now) (2 ^ 64 - 1)) 0) }
{
    match ty {
        Ty::IntLit(_) | Ty::StrLit(_) => 0,
        _ => size(ty),
    }
}

impl Members {
    /// No member yet. It takes no memory.
    pub fn new(alloc: Global) -> Members
        ensures empty { result.kept ≡ [] }
        ensures counted { IsCounted result.kept result.nodes }
    {
        Members {
            kept: List::new(alloc),
            nodes: 0,
        }
    }

    /// Adds a type that is no union.
    fn add_alone(&mut self, alloc: Global, ty: &Ty) -> Result<(), NoMemory>
        requires counted { IsCounted self.old.kept self.old.nodes }
        requires alone { members ty.now ≡ ty.now ∷ [] }
        ensures counted { OnOk result (IsCounted self.new.kept self.new.nodes) }
        ensures stand { OnOk result (StandFor self.new.kept (self.old.kept ++ ty.now ∷ [])) }
    {
        if contains(self.kept.as_slice(), ty) {
            return Ok(());
        }
        if self.nodes > MOST_NODES && !absorbs(ty) {
            return Ok(());
        }
        self.kept.push(ty.copy(alloc)?)?;
        self.nodes = self.nodes.saturating_add(nodes_that_last(ty));
        Ok(())
    }

    /// Adds the members of a type.
    pub fn add(&mut self, alloc: Global, ty: &Ty) -> Result<(), NoMemory>
        requires counted { IsCounted self.old.kept self.old.nodes }
        ensures counted { OnOk result (IsCounted self.new.kept self.new.nodes) }
        ensures stand { OnOk result (StandFor self.new.kept (self.old.kept ++ ty.now ∷ [])) }
    {
        if let Ty::Union(members) = ty {
            for member in members.as_slice() {
                self.add(alloc, member)?;
            }
            return Ok(());
        }
        self.add_alone(alloc, ty)
    }

    /// The union's type, where it keeps within both limits. Nothing is formed of members that are too many.
    pub fn union_type(self) -> Option<Ty>
        requires counted { IsCounted self.kept self.nodes }
        ensures { result ≡ limited (union_form self.kept) }
    {
        let nodes = union_size(self.kept.as_slice());
        if nodes > MOST_NODES {
            return None;
        }
        shallow(formed(self.kept))
    }
}

/// The members that are left beside their base types.
fn left_beside(kinds: Kinds, kept: List<Ty>) -> List<Ty>
    ensures { result ≡ uncovered kinds.int kinds.str kept }
{
    let mut left = kept.into_vec();
    left.retain(|ty| !kinds.cover(ty));
    List::from_vec(left)
}

/// One member alone is that type.
fn from_members(kept: List<Ty>) -> Ty
    ensures { result ≡ union_from kept }
{
    let mut members = kept.into_vec();
    if members.len() == 1 {
        if let Some(only) = members.pop() {
            return only;
        }
    }
    Ty::Union(List::from_vec(members))
}

/// The union of members, which it is made of without a copy.
fn formed(kept: List<Ty>) -> Ty
    requires flat { flat_map members kept ≡ kept }
    requires once { distinct kept ≡ kept }
    requires within { type_size (union_form kept) ≤ 65536 }
    ensures { result ≡ union_form kept }
{
    let kinds = kinds_of(kept.as_slice());
    if kinds.any {
        return Ty::Any;
    }
    if kinds.value {
        return Ty::Value;
    }
    from_members(left_beside(kinds, kept))
}

/// The type itself, where it isn't too deep.
fn shallow(ty: Ty) -> Option<Ty>
    requires within { type_size ty ≤ 65536 }
    ensures { result ≡ limited ty }
{
    if depth(&ty) <= GREATEST_DEPTH {
        Some(ty)
    } else {
        None
    }
}
