ghost use Rattle.std.specs.Prelude.{◌≡◌};
ghost use Rattle.tl_types.specs.declared.types.Ty.TheOpen.{Rec};
ghost use Rattle.tl_types.specs.Types.{unfolded, Bodies};
ghost use Rattle.tl_types.specs.Below.{Test, member_below};
ghost use Rattle.subtyping.specs.Meetings.{meeting_below};
ghost use Rattle.subtyping.specs.Bodies.{IsBody};

use crate::{Rules, Ty};
use tl_types::{Field, Func};

/// How two types that are no unions compare: with an answer at once, or by parts.
#[derive(Clone, Copy)]
pub(crate) enum Meeting<'a> {
    Answer(bool),
    Functions(&'a Func, &'a Func),
    Records(&'a [Field], &'a [Field]),
    Maps(&'a Ty, &'a Ty, &'a Ty, &'a Ty),
}

pub(crate) fn meet<'a>(rules: Rules<'a>, s: &'a Ty, t: &'a Ty) -> Meeting<'a>
    ensures { (R : Test) → member_below rules.entry.bodies.now R s.now t.now ≡ meeting_below R result }
{
    match (s, t) {
        (_, Ty::Value | Ty::Any) => Meeting::Answer(true),
        (Ty::Nil, Ty::Nil)
        | (Ty::True, Ty::True)
        | (Ty::False, Ty::False)
        | (Ty::Int | Ty::IntLit(_), Ty::Int)
        | (Ty::Str | Ty::StrLit(_), Ty::Str) => Meeting::Answer(true),
        (Ty::IntLit(m), Ty::IntLit(n)) => Meeting::Answer(m == n),
        (Ty::StrLit(a), Ty::StrLit(b)) => Meeting::Answer(a.as_slice() == b.as_slice()),
        (Ty::Func(f), Ty::Func(g)) => Meeting::Functions(f.get(), g.get()),
        (Ty::Map(k, v), Ty::Map(l, w)) => Meeting::Maps(k.get(), v.get(), l.get(), w.get()),
        _ => match (body(rules, s), body(rules, t)) {
            (Some(fs), Some(gs)) => Meeting::Records(fs, gs),
            _ => Meeting::Answer(false),
        },
    }
}

// The fields of a type that stands for a record.
fn body<'a>(rules: Rules<'a>, ty: &'a Ty) -> Option<&'a [Field]>
    ensures { IsBody rules.entry.bodies.now ty.now result }
{
    match ty {
        Ty::Rec(fields) => Some(fields.as_slice()),
        Ty::Iface(n) => Some(match rules.bodies.get(*n as usize) {
            Some(fields) => fields.as_slice(),
            None => &[],
        }),
        _ => None,
    }
}
