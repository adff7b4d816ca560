ghost use Rattle.std.specs.Prelude.{◌≡◌, ◌↔◌, IsTrue};

use crate::{Field, Func, Tuple, Ty};

/// Whether two types are the same tree, with interfaces compared by their numbers.
#[cycle(equality)]
pub fn same(a: &Ty, b: &Ty) -> bool
    ensures { IsTrue result ↔ (a.now ≡ b.now) }
{
    match (a, b) {
        (Ty::Nil, Ty::Nil)
        | (Ty::True, Ty::True)
        | (Ty::False, Ty::False)
        | (Ty::Int, Ty::Int)
        | (Ty::Str, Ty::Str)
        | (Ty::Value, Ty::Value)
        | (Ty::Any, Ty::Any) => true,
        (Ty::IntLit(m), Ty::IntLit(n)) => m == n,
        (Ty::StrLit(s), Ty::StrLit(t)) => s.as_slice() == t.as_slice(),
        (Ty::Union(xs), Ty::Union(ys)) => same_types(xs.as_slice(), ys.as_slice()),
        (Ty::Func(f), Ty::Func(g)) => same_funcs(f.get(), g.get()),
        (Ty::Rec(fs), Ty::Rec(gs)) => same_fields(fs.as_slice(), gs.as_slice()),
        (Ty::Map(k, v), Ty::Map(l, w)) => same(k.get(), l.get()) && same(v.get(), w.get()),
        (Ty::Iface(m), Ty::Iface(n)) => m == n,
        _ => false,
    }
}

#[cycle(equality)]
fn same_types(xs: &[Ty], ys: &[Ty]) -> bool
    ensures { IsTrue result ↔ (xs.now ≡ ys.now) }
{
    if xs.len() != ys.len() {
        return false;
    }
    for (x, y) in xs.iter().zip(ys) {
        if !same(x, y) {
            return false;
        }
    }
    true
}

#[cycle(equality)]
fn same_fields(fs: &[Field], gs: &[Field]) -> bool
    ensures { IsTrue result ↔ (fs.now ≡ gs.now) }
{
    if fs.len() != gs.len() {
        return false;
    }
    for (f, g) in fs.iter().zip(gs) {
        if f.name.as_slice() != g.name.as_slice()
            || f.is_const != g.is_const
            || !same(&f.ty, &g.ty)
        {
            return false;
        }
    }
    true
}

#[cycle(equality)]
fn same_tuple(p: &Tuple, q: &Tuple) -> bool
    ensures { IsTrue result ↔ (p.now ≡ q.now) }
{
    same_types(p.items.as_slice(), q.items.as_slice()) && same(p.tail.get(), q.tail.get())
}

#[cycle(equality)]
fn same_tuples(ps: &[Tuple], qs: &[Tuple]) -> bool
    ensures { IsTrue result ↔ (ps.now ≡ qs.now) }
{
    if ps.len() != qs.len() {
        return false;
    }
    for (p, q) in ps.iter().zip(qs) {
        if !same_tuple(p, q) {
            return false;
        }
    }
    true
}

#[cycle(equality)]
fn same_funcs(f: &Func, g: &Func) -> bool
    ensures { IsTrue result ↔ (f.now ≡ g.now) }
{
    same_tuple(&f.params, &g.params)
        && same_tuples(f.results.tuples.as_slice(), g.results.tuples.as_slice())
}
