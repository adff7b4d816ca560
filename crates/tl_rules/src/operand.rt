ghost use Rattle.std.specs.Prelude.{◌≡◌, ◌&&◌, ◌||◌, false};
ghost use Rattle.std.specs.List.{list_all, list_any};
ghost use Rattle.tl_types.specs.Types.{members};
ghost use Rattle.tl_rules.specs.Operands as operands;

use crate::{BinaryOperator, Ty};

/// How a type fits where an operation wants certain kinds.
#[derive(Clone, Copy, Debug, PartialEq, Eq)]
pub enum Fit {
    /// `any`, which is trusted to fit
    Unknown,
    /// `value`, of which nothing is known
    Opaque,
    /// each member fits
    All,
    /// some members fit, and others don't
    Some,
    /// no member fits
    No,
}

/// How a type fits where an integer is wanted.
pub fn integer_fit(ty: &Ty) -> Fit
    ensures { result ≡ operands.integer_fit ty.now }
{
    match ty {
        Ty::Any => Fit::Unknown,
        Ty::Value => Fit::Opaque,
        ty => fit_of(look(
            ty,
            Seen {
                all: true,
                some: false,
            },
        )),
    }
}

// What was seen of the members of a type: whether all of them are integers, and whether some are.
#[derive(Clone, Copy)]
struct Seen {
    all: bool,
    some: bool,
}

fn fit_of(seen: Seen) -> Fit
    ensures { result ≡ operands.fit_by false false seen.all seen.some }
{
    if seen.all {
        Fit::All
    } else if seen.some {
        Fit::Some
    } else {
        Fit::No
    }
}

// What was seen before, and what stands among the members of a type.
#[tactic(auto, using(crate::proofs::Gathered::all_more, crate::proofs::Gathered::some_more))]
fn look(ty: &Ty, seen: Seen) -> Seen
    ensures all { result.all ≡ (seen.all && list_all operands.is_integer (members ty.now)) }
    ensures some { result.some ≡ (seen.some || list_any operands.is_integer (members ty.now)) }
{
    match ty {
        Ty::Union(members) => {
            let mut seen = seen;
            for member in members.as_slice() {
                seen = look(member, seen);
            }
            seen
        }
        Ty::Int | Ty::IntLit(_) => Seen { some: true, ..seen },
        _ => Seen { all: false, ..seen },
    }
}

/// Whether there is a rule for an operator: so far for three of those that take integers and give an integer.
pub fn is_ruled(operator: BinaryOperator) -> bool
    ensures { result ≡ operands.is_ruled operator }
{
    matches!(
        operator,
        BinaryOperator::Add | BinaryOperator::Subtract | BinaryOperator::Multiply
    )
}

/// The type of an operation on integers.
pub fn operation_type(left: &Ty, right: &Ty) -> Ty
    ensures { result ≡ operands.operation_type left.now right.now }
{
    match (left, right) {
        (Ty::Any, _) | (_, Ty::Any) => Ty::Any,
        _ => Ty::Int,
    }
}
