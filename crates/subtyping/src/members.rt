ghost use Rattle.std.specs.Prelude.{◌≡◌, ◌&&◌};
ghost use Rattle.std.specs.List.{list_any};
ghost use Rattle.tl_types.specs.declared.types.Ty.TheVariants as ty;
ghost use Rattle.tl_types.specs.Types.{members};
ghost use Rattle.tl_types.specs.Unions.{is_any};
ghost use Rattle.tl_types.specs.Below.{member_below, step};
ghost use Rattle.subtyping.specs.Pairs.{side_ty, Compared};

use crate::compare::leaf;
use crate::{Assumed, NoMemory, Rules, Side, Ty};

/// Whether each member of the left side is below a member of the right one.
pub(crate) fn each_of<'a>(
    rules: Rules<'a>,
    assumed: &mut Assumed<'a>,
    left: Side<'a>,
    right: Side<'a>,
) -> Result<bool, NoMemory>
    requires nil { rules.nil.now ≡ ty.Nil }
    ensures { Compared rules.entry.loose rules.entry.bodies.now assumed.old.pairs.items assumed.new.pairs.items (λ R. step rules.entry.loose rules.entry.bodies.now R (side_ty left.entry) (side_ty right.entry)) result }
{
    match left {
        Side::Of(a) => each(rules, assumed, a, right),
        Side::WithNil(a) => with_nil(rules, assumed, a, right),
    }
}

// The same of the union of a type and `nil` on the left.
fn with_nil<'a>(
    rules: Rules<'a>,
    assumed: &mut Assumed<'a>,
    a: &'a Ty,
    right: Side<'a>,
) -> Result<bool, NoMemory>
    requires nil { rules.nil.now ≡ ty.Nil }
    ensures { Compared rules.entry.loose rules.entry.bodies.now assumed.old.pairs.items assumed.new.pairs.items (λ R. step rules.entry.loose rules.entry.bodies.now R (Rattle.tl_types.specs.Unions.or_nil a.now) (side_ty right.entry)) result }
{
    if lets_all(rules, a) {
        return Ok(true);
    }
    if !each(rules, assumed, a, right)? {
        return Ok(false);
    }
    each(rules, assumed, rules.nil, right)
}

// The same of a type on the left.
fn each<'a>(
    rules: Rules<'a>,
    assumed: &mut Assumed<'a>,
    a: &'a Ty,
    right: Side<'a>,
) -> Result<bool, NoMemory>
    requires nil { rules.nil.now ≡ ty.Nil }
    ensures { Compared rules.entry.loose rules.entry.bodies.now assumed.old.pairs.items assumed.new.pairs.items (λ R. step rules.entry.loose rules.entry.bodies.now R a.now (side_ty right.entry)) result }
{
    if let Ty::Union(members) = a {
        for member in members.as_slice() {
            if !each(rules, assumed, member, right)? {
                return Ok(false);
            }
        }
        return Ok(true);
    }
    if lets_all(rules, a) {
        return Ok(true);
    }
    some_of(rules, assumed, a, right)
}

// Whether a type that is no union is below a member of the right side.
fn some_of<'a>(
    rules: Rules<'a>,
    assumed: &mut Assumed<'a>,
    s: &'a Ty,
    right: Side<'a>,
) -> Result<bool, NoMemory>
    requires nil { rules.nil.now ≡ ty.Nil }
    ensures { Compared rules.entry.loose rules.entry.bodies.now assumed.old.pairs.items assumed.new.pairs.items (λ R. list_any (member_below rules.entry.bodies.now R s.now) (members (side_ty right.entry))) result }
{
    match right {
        Side::Of(t) => some(rules, assumed, s, t),
        Side::WithNil(t) => some_or_nil(rules, assumed, s, t),
    }
}

// The same where `nil` stands beside a type.
fn some_or_nil<'a>(
    rules: Rules<'a>,
    assumed: &mut Assumed<'a>,
    s: &'a Ty,
    t: &'a Ty,
) -> Result<bool, NoMemory>
    requires nil { rules.nil.now ≡ ty.Nil }
    ensures { Compared rules.entry.loose rules.entry.bodies.now assumed.old.pairs.items assumed.new.pairs.items (λ R. list_any (member_below rules.entry.bodies.now R s.now) (members (Rattle.tl_types.specs.Unions.or_nil t.now))) result }
{
    if some(rules, assumed, s, t)? {
        return Ok(true);
    }
    leaf(rules, assumed, s, rules.nil)
}

// Whether a type that is no union is below a member of another.
fn some<'a>(
    rules: Rules<'a>,
    assumed: &mut Assumed<'a>,
    s: &'a Ty,
    t: &'a Ty,
) -> Result<bool, NoMemory>
    ensures { Compared rules.entry.loose rules.entry.bodies.now assumed.old.pairs.items assumed.new.pairs.items (λ R. list_any (member_below rules.entry.bodies.now R s.now) (members t.now)) result }
{
    if let Ty::Union(members) = t {
        for member in members.as_slice() {
            if some(rules, assumed, s, member)? {
                return Ok(true);
            }
        }
        return Ok(false);
    }
    leaf(rules, assumed, s, t)
}

// Whether a type is below every type, since `any` is.
fn lets_all(rules: Rules, ty: &Ty) -> bool
    ensures { result ≡ (rules.entry.loose && list_any is_any (members ty.now)) }
{
    rules.loose && has_any(ty)
}

// Whether `any` stands among the members of a type.
fn has_any(ty: &Ty) -> bool
    ensures { result ≡ list_any is_any (members ty.now) }
{
    match ty {
        Ty::Any => true,
        Ty::Union(members) => {
            for member in members.as_slice() {
                if has_any(member) {
                    return true;
                }
            }
            false
        }
        _ => false,
    }
}
