ghost use Rattle.std.specs.Prelude.{◌≡◌, ◌+◌, ◌-◌, ◌^◌, ◌∷◌, [], ◌||◌, cond, flat_map, length, min, sum_by};
ghost use Rattle.std.specs.List.{list_any};
ghost use Rattle.tl_types.specs.declared.types.Ty.{out-Ty};
ghost use Rattle.tl_types.specs.Sizes.{type_size};
ghost use Rattle.tl_types.specs.Types.{members};
ghost use Rattle.tl_types.specs.Unions.{distinct, is_any, is_value, is_int, is_str, is_covered_form, union_form};
ghost use Rattle.type_reader.specs.Gathered.{uncovered};

use tl_types::{Ty, size};

/// Which of the types that stand for other members of a union are there.
#[derive(Clone, Copy)]
pub struct Kinds {
    pub any: bool,
    pub value: bool,
    pub int: bool,
    pub str: bool,
}

impl Kinds {
    const NONE: Kinds = Kinds {
        any: false,
        value: false,
        int: false,
        str: false,
    };

    fn with(self, ty: &Ty) -> Kinds
        ensures any { result.any ≡ (self.any || is_any ty.now) }
        ensures value { result.value ≡ (self.value || is_value ty.now) }
        ensures int { result.int ≡ (self.int || is_int ty.now) }
        ensures str { result.str ≡ (self.str || is_str ty.now) }
    {
        match ty {
            Ty::Any => Kinds { any: true, ..self },
            Ty::Value => Kinds {
                value: true,
                ..self
            },
            Ty::Int => Kinds { int: true, ..self },
            Ty::Str => Kinds { str: true, ..self },
            _ => self,
        }
    }

    /// Whether a type is a literal whose base type is there.
    pub fn cover(self, ty: &Ty) -> bool
        ensures { result ≡ is_covered_form self.int self.str (out-Ty ty.now) }
    {
        match ty {
            Ty::IntLit(_) => self.int,
            Ty::StrLit(_) => self.str,
            _ => false,
        }
    }
}

pub fn kinds_of(kept: &[Ty]) -> Kinds
    ensures any { result.any ≡ list_any is_any kept.now }
    ensures value { result.value ≡ list_any is_value kept.now }
    ensures int { result.int ≡ list_any is_int kept.now }
    ensures str { result.str ≡ list_any is_str kept.now }
{
    let mut kinds = Kinds::NONE;
    for ty in kept {
        kinds = kinds.with(ty);
    }
    kinds
}

/// How many members of a union are left beside base types, and how many nodes they have. Both stand still at their type's greatest.
#[derive(Clone, Copy)]
struct Left {
    count: u64,
    nodes: u64,
}

impl Left {
    const NONE: Left = Left { count: 0, nodes: 0 };

    fn with(self, kinds: Kinds, ty: &Ty) -> Left
        ensures count { result.count ≡ min (self.count + length (uncovered kinds.int kinds.str (ty.now ∷ []))) (2 ^ 64 - 1) }
        ensures nodes { result.nodes ≡ min (self.nodes + sum_by type_size (uncovered kinds.int kinds.str (ty.now ∷ []))) (2 ^ 64 - 1) }
    {
        if kinds.cover(ty) {
            return self;
        }
        Left {
            count: self.count.saturating_add(1),
            nodes: self.nodes.saturating_add(size(ty)),
        }
    }
}

fn left_of(kinds: Kinds, kept: &[Ty]) -> Left
    ensures count { result.count ≡ min (length (uncovered kinds.int kinds.str kept.now)) (2 ^ 64 - 1) }
    ensures nodes { result.nodes ≡ min (sum_by type_size (uncovered kinds.int kinds.str kept.now)) (2 ^ 64 - 1) }
{
    let mut left = Left::NONE;
    for ty in kept {
        left = left.with(kinds, ty);
    }
    left
}

/// How many nodes the union of members will have, or the greatest u64 where they are more. Nothing is made to tell it.
pub fn union_size(kept: &[Ty]) -> u64
    requires flat { flat_map members kept.now ≡ kept.now }
    requires once { distinct kept.now ≡ kept.now }
    ensures { result ≡ min (type_size (union_form kept.now)) (2 ^ 64 - 1) }
{
    let kinds = kinds_of(kept);
    if kinds.any || kinds.value {
        return 1;
    }
    let left = left_of(kinds, kept);
    if left.count == 1 {
        return left.nodes;
    }
    left.nodes.saturating_add(1)
}
