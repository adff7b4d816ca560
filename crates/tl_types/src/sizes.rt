ghost use Rattle.std.specs.Prelude.{◌≡◌, ◌+◌, ◌-◌, ◌^◌, min, max, sum_by};
ghost use Rattle.tl_types.specs.Sizes.{type_size, type_depth};
ghost use Rattle.tl_types.specs.Parts.{size_tuple, size_func, depth_tuple, depth_func, deepest};

use crate::{Field, Func, Tuple, Ty};

/// How many nodes there are, and how deep the deepest goes. Both stand still at their type's greatest.
#[derive(Clone, Copy)]
pub(crate) struct Extent {
    pub(crate) nodes: u64,
    pub(crate) depth: u64,
}

impl Extent {
    const NONE: Extent = Extent { nodes: 0, depth: 0 };

    /// Of two things that stand side by side.
    fn beside(self, other: Extent) -> Extent
        ensures nodes { result.nodes ≡ min (self.nodes + other.nodes) (2 ^ 64 - 1) }
        ensures depth { result.depth ≡ max self.depth other.depth }
    {
        Extent {
            nodes: self.nodes.saturating_add(other.nodes),
            depth: self.depth.max(other.depth),
        }
    }

    /// Of a type that has these components.
    fn above(self) -> Extent
        ensures nodes { result.nodes ≡ min (1 + self.nodes) (2 ^ 64 - 1) }
        ensures depth { result.depth ≡ min (1 + self.depth) (2 ^ 64 - 1) }
    {
        Extent {
            nodes: self.nodes.saturating_add(1),
            depth: self.depth.saturating_add(1),
        }
    }
}

/// How many nodes a type has, or the greatest u64 where it has more.
pub fn size(ty: &Ty) -> u64
    ensures { result ≡ min (type_size ty.now) (2 ^ 64 - 1) }
{
    of_type(ty).nodes
}

/// How deep a type is, 1 without components, or the greatest u64 where it is deeper.
pub fn depth(ty: &Ty) -> u64
    ensures { result ≡ min (type_depth ty.now) (2 ^ 64 - 1) }
{
    of_type(ty).depth
}

#[cycle(extents)]
pub(crate) fn of_type(ty: &Ty) -> Extent
    ensures nodes { result.nodes ≡ min (type_size ty.now) (2 ^ 64 - 1) }
    ensures depth { result.depth ≡ min (type_depth ty.now) (2 ^ 64 - 1) }
{
    match ty {
        Ty::Union(members) => of_types(members.as_slice()).above(),
        Ty::Func(func) => of_func(func.get()).above(),
        Ty::Rec(fields) => of_fields(fields.as_slice()).above(),
        Ty::Map(key, value) => of_type(key.get()).beside(of_type(value.get())).above(),
        _ => Extent::NONE.above(),
    }
}

#[cycle(extents)]
fn of_types(types: &[Ty]) -> Extent
    ensures nodes { result.nodes ≡ min (sum_by type_size types.now) (2 ^ 64 - 1) }
    ensures depth { result.depth ≡ min (deepest type_depth types.now) (2 ^ 64 - 1) }
{
    let mut all = Extent::NONE;
    for ty in types {
        all = all.beside(of_type(ty));
    }
    all
}

#[cycle(extents)]
fn of_fields(fields: &[Field]) -> Extent
    ensures nodes { result.nodes ≡ min (sum_by (λ f. type_size f.ty) fields.now) (2 ^ 64 - 1) }
    ensures depth { result.depth ≡ min (deepest (λ f. type_depth f.ty) fields.now) (2 ^ 64 - 1) }
{
    let mut all = Extent::NONE;
    for field in fields {
        all = all.beside(of_type(&field.ty));
    }
    all
}

#[cycle(extents)]
fn of_tuple(tuple: &Tuple) -> Extent
    ensures nodes { result.nodes ≡ min (size_tuple tuple.now) (2 ^ 64 - 1) }
    ensures depth { result.depth ≡ min (depth_tuple tuple.now) (2 ^ 64 - 1) }
{
    of_types(tuple.items.as_slice()).beside(of_type(tuple.tail.get()))
}

#[cycle(extents)]
fn of_tuples(tuples: &[Tuple]) -> Extent
    ensures nodes { result.nodes ≡ min (sum_by size_tuple tuples.now) (2 ^ 64 - 1) }
    ensures depth { result.depth ≡ min (deepest depth_tuple tuples.now) (2 ^ 64 - 1) }
{
    let mut all = Extent::NONE;
    for tuple in tuples {
        all = all.beside(of_tuple(tuple));
    }
    all
}

#[cycle(extents)]
fn of_func(func: &Func) -> Extent
    ensures nodes { result.nodes ≡ min (size_func func.now) (2 ^ 64 - 1) }
    ensures depth { result.depth ≡ min (depth_func func.now) (2 ^ 64 - 1) }
{
    of_tuple(&func.params).beside(of_tuples(func.results.tuples.as_slice()))
}
