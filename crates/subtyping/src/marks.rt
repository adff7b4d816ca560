use crate::{Side, Ty};
use tl_types::{Field, Func, Tuple};

// How many levels of a type its mark looks at.
const LEVELS: u32 = 6;

/// A number that equal pairs of sides share. Nothing rests on it but the time that it takes to find a pair again.
pub(crate) fn pair_mark(left: Side, right: Side) -> u64 {
    mix(side_mark(left), side_mark(right))
}

fn side_mark(side: Side) -> u64 {
    match side {
        Side::Of(ty) => mix(1, mark(ty, LEVELS)),
        Side::WithNil(ty) => mix(2, mark(ty, LEVELS)),
    }
}

fn mix(a: u64, b: u64) -> u64 {
    (a.rotate_left(5) ^ b).wrapping_mul(11400714819323198485)
}

fn mark_bytes(bytes: &[u8]) -> u64 {
    let mut all = 3;
    for byte in bytes {
        all = mix(all, u64::from(*byte));
    }
    all
}

#[cycle(marks)]
fn mark(ty: &Ty, levels: u32) -> u64 {
    if levels == 0 {
        return 4;
    }
    let below = levels - 1;
    match ty {
        Ty::Nil => 5,
        Ty::True => 6,
        Ty::False => 7,
        Ty::Int => 8,
        Ty::IntLit(n) => mix(9, n.unsigned_abs()),
        Ty::Str => 10,
        Ty::StrLit(s) => mix(11, mark_bytes(s.as_slice())),
        Ty::Value => 12,
        Ty::Any => 13,
        Ty::Union(members) => mix(14, mark_all(members.as_slice(), below)),
        Ty::Func(func) => mix(15, mark_func(func.get(), below)),
        Ty::Rec(fields) => mix(16, mark_fields(fields.as_slice(), below)),
        Ty::Map(key, value) => mix(mark(key.get(), below), mark(value.get(), below)),
        Ty::Iface(n) => mix(17, u64::from(*n)),
    }
}

#[cycle(marks)]
fn mark_all(types: &[Ty], levels: u32) -> u64 {
    let mut all = 18;
    for ty in types {
        all = mix(all, mark(ty, levels));
    }
    all
}

#[cycle(marks)]
fn mark_fields(fields: &[Field], levels: u32) -> u64 {
    let mut all = 19;
    for field in fields {
        all = mix(all, mark_bytes(field.name.as_slice()));
        all = mix(all, mark(&field.ty, levels));
    }
    all
}

#[cycle(marks)]
fn mark_tuple(tuple: &Tuple, levels: u32) -> u64 {
    mix(
        mark_all(tuple.items.as_slice(), levels),
        mark(tuple.tail.get(), levels),
    )
}

#[cycle(marks)]
fn mark_func(func: &Func, levels: u32) -> u64 {
    let mut all = mark_tuple(&func.params, levels);
    for tuple in func.results.tuples.as_slice() {
        all = mix(all, mark_tuple(tuple, levels));
    }
    all
}
