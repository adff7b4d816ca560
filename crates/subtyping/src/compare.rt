ghost use Rattle.std.specs.Prelude.{◌≡◌, ◌&&◌, option_map};
ghost use Rattle.std.specs.List.{list_any};
ghost use Rattle.tl_types.specs.Unions.{tuple_place};
ghost use Rattle.tl_types.specs.Below.{named, field_below, has_below, record_below, tuple_below, results_below, function_below, map_below, member_below};
ghost use Rattle.subtyping.specs.Pairs.{side_ty, Compared};

use crate::meet::{Meeting, meet};
use crate::pairs::assume;
use crate::{Assumed, NoMemory, Rules, Side, Ty};
use tl_types::{Field, Func, Tuple};

/// Whether a type that is no union is below another such type.
pub(crate) fn leaf<'a>(
    rules: Rules<'a>,
    assumed: &mut Assumed<'a>,
    s: &'a Ty,
    t: &'a Ty,
) -> Result<bool, NoMemory>
    ensures { Compared rules.entry.loose rules.entry.bodies.now assumed.old.pairs.items assumed.new.pairs.items (λ R. member_below rules.entry.bodies.now R s.now t.now) result }
{
    match meet(rules, s, t) {
        Meeting::Answer(answer) => Ok(answer),
        Meeting::Functions(f, g) => function(rules, assumed, f, g),
        Meeting::Records(fs, gs) => record(rules, assumed, fs, gs),
        Meeting::Maps(k, v, l, w) => map(rules, assumed, k, v, l, w),
    }
}

fn function<'a>(
    rules: Rules<'a>,
    assumed: &mut Assumed<'a>,
    f: &'a Func,
    g: &'a Func,
) -> Result<bool, NoMemory>
    ensures { Compared rules.entry.loose rules.entry.bodies.now assumed.old.pairs.items assumed.new.pairs.items (λ R. function_below R f.now g.now) result }
{
    if !tuple(rules, assumed, &g.params, &f.params)? {
        return Ok(false);
    }
    results(
        rules,
        assumed,
        f.results.tuples.as_slice(),
        g.results.tuples.as_slice(),
    )
}

fn results<'a>(
    rules: Rules<'a>,
    assumed: &mut Assumed<'a>,
    ps: &'a [Tuple],
    qs: &'a [Tuple],
) -> Result<bool, NoMemory>
    ensures { Compared rules.entry.loose rules.entry.bodies.now assumed.old.pairs.items assumed.new.pairs.items (λ R. results_below R ps.now qs.now) result }
{
    for p in ps {
        if !one_of(rules, assumed, p, qs)? {
            return Ok(false);
        }
    }
    Ok(true)
}

fn one_of<'a>(
    rules: Rules<'a>,
    assumed: &mut Assumed<'a>,
    p: &'a Tuple,
    qs: &'a [Tuple],
) -> Result<bool, NoMemory>
    ensures { Compared rules.entry.loose rules.entry.bodies.now assumed.old.pairs.items assumed.new.pairs.items (λ R. list_any (tuple_below R p.now) qs.now) result }
{
    for q in qs {
        if tuple(rules, assumed, p, q)? {
            return Ok(true);
        }
    }
    Ok(false)
}

fn tuple<'a>(
    rules: Rules<'a>,
    assumed: &mut Assumed<'a>,
    p: &'a Tuple,
    q: &'a Tuple,
) -> Result<bool, NoMemory>
    ensures { Compared rules.entry.loose rules.entry.bodies.now assumed.old.pairs.items assumed.new.pairs.items (λ R. tuple_below R p.now q.now) result }
{
    let most = p.items.len().max(q.items.len());
    for i in 0..most {
        if !assume(assumed, place(p, i), place(q, i))? {
            return Ok(false);
        }
    }
    assume(
        assumed,
        Side::WithNil(p.tail.get()),
        Side::WithNil(q.tail.get()),
    )
}

// The type at a place of a tuple.
fn place<'a>(tuple: &'a Tuple, i: usize) -> Side<'a>
    ensures { side_ty result ≡ tuple_place tuple.now i }
{
    match tuple.items.get(i) {
        Some(ty) => Side::Of(ty),
        None => Side::WithNil(tuple.tail.get()),
    }
}

fn record<'a>(
    rules: Rules<'a>,
    assumed: &mut Assumed<'a>,
    fs: &'a [Field],
    gs: &'a [Field],
) -> Result<bool, NoMemory>
    ensures { Compared rules.entry.loose rules.entry.bodies.now assumed.old.pairs.items assumed.new.pairs.items (λ R. record_below R fs.now gs.now) result }
{
    for g in gs {
        if !has_named(rules, assumed, fs, gs, g.name.as_slice())? {
            return Ok(false);
        }
    }
    Ok(true)
}

// Whether the left record has the field of a name that the right one has.
fn has_named<'a>(
    rules: Rules<'a>,
    assumed: &mut Assumed<'a>,
    fs: &'a [Field],
    gs: &'a [Field],
    name: &[u8],
) -> Result<bool, NoMemory>
    ensures { Compared rules.entry.loose rules.entry.bodies.now assumed.old.pairs.items assumed.new.pairs.items (λ R. has_below R (named name.now fs.now) (named name.now gs.now)) result }
{
    has(rules, assumed, find(fs, name), find(gs, name))
}

// The first field of a name.
fn find<'a>(fields: &'a [Field], name: &[u8]) -> Option<&'a Field>
    ensures { option_map (λ f. f.now) result ≡ named name.now fields.now }
{
    fields.iter().find(|f| f.name.as_slice() == name)
}

fn has<'a>(
    rules: Rules<'a>,
    assumed: &mut Assumed<'a>,
    f: Option<&'a Field>,
    g: Option<&'a Field>,
) -> Result<bool, NoMemory>
    ensures { Compared rules.entry.loose rules.entry.bodies.now assumed.old.pairs.items assumed.new.pairs.items (λ R. has_below R (option_map (λ f. f.now) f.entry) (option_map (λ g. g.now) g.entry)) result }
{
    match (f, g) {
        (_, None) => Ok(true),
        (None, _) => Ok(false),
        (Some(f), Some(g)) => field(rules, assumed, f, g),
    }
}

fn field<'a>(
    rules: Rules<'a>,
    assumed: &mut Assumed<'a>,
    f: &'a Field,
    g: &'a Field,
) -> Result<bool, NoMemory>
    ensures { Compared rules.entry.loose rules.entry.bodies.now assumed.old.pairs.items assumed.new.pairs.items (λ R. field_below R f.now g.now) result }
{
    if !assume(assumed, Side::Of(&f.ty), Side::Of(&g.ty))? {
        return Ok(false);
    }
    if g.is_const {
        return Ok(true);
    }
    if f.is_const {
        return Ok(false);
    }
    assume(assumed, Side::Of(&g.ty), Side::Of(&f.ty))
}

fn map<'a>(
    rules: Rules<'a>,
    assumed: &mut Assumed<'a>,
    k: &'a Ty,
    v: &'a Ty,
    l: &'a Ty,
    w: &'a Ty,
) -> Result<bool, NoMemory>
    ensures { Compared rules.entry.loose rules.entry.bodies.now assumed.old.pairs.items assumed.new.pairs.items (λ R. map_below R k.now v.now l.now w.now) result }
{
    if !both(rules, assumed, k, l)? {
        return Ok(false);
    }
    both(rules, assumed, v, w)
}

// Whether two types are below each other.
fn both<'a>(
    rules: Rules<'a>,
    assumed: &mut Assumed<'a>,
    a: &'a Ty,
    b: &'a Ty,
) -> Result<bool, NoMemory>
    ensures { Compared rules.entry.loose rules.entry.bodies.now assumed.old.pairs.items assumed.new.pairs.items (λ R. R a.now b.now && R b.now a.now) result }
{
    if !assume(assumed, Side::Of(a), Side::Of(b))? {
        return Ok(false);
    }
    assume(assumed, Side::Of(b), Side::Of(a))
}
