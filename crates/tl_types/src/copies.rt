ghost use Rattle.std.specs.Prelude.{◌≡◌, IfOk};

use crate::{Field, Func, NoMemory, Tuple, Ty};
use std::alloc::Global;
use tl_base::{Boxed, List};

impl Ty {
    /// The same type once more. Names and strings are shared.
    #[cycle(copies)]
    pub fn copy(&self, alloc: Global) -> Result<Ty, NoMemory>
        ensures { IfOk result (λ t. t ≡ self.now) }
    {
        Ok(match self {
            Ty::Nil => Ty::Nil,
            Ty::True => Ty::True,
            Ty::False => Ty::False,
            Ty::Int => Ty::Int,
            Ty::IntLit(n) => Ty::IntLit(*n),
            Ty::Str => Ty::Str,
            Ty::StrLit(s) => Ty::StrLit(s.share()?),
            Ty::Value => Ty::Value,
            Ty::Any => Ty::Any,
            Ty::Union(members) => Ty::Union(copy_types(alloc, members.as_slice())?),
            Ty::Func(func) => Ty::Func(Boxed::new(alloc, copy_func(alloc, func.get())?)?),
            Ty::Rec(fields) => Ty::Rec(copy_fields(alloc, fields.as_slice())?),
            Ty::Map(key, value) => Ty::Map(
                Boxed::new(alloc, key.get().copy(alloc)?)?,
                Boxed::new(alloc, value.get().copy(alloc)?)?,
            ),
            Ty::Iface(n) => Ty::Iface(*n),
        })
    }
}

#[cycle(copies)]
fn copy_types(alloc: Global, types: &[Ty]) -> Result<List<Ty>, NoMemory>
    ensures { IfOk result (λ ts. ts ≡ types.now) }
{
    let mut copies = List::new(alloc);
    for ty in types {
        copies.push(ty.copy(alloc)?)?;
    }
    Ok(copies)
}

#[cycle(copies)]
fn copy_fields(alloc: Global, fields: &[Field]) -> Result<List<Field>, NoMemory>
    ensures { IfOk result (λ fs. fs ≡ fields.now) }
{
    let mut copies = List::new(alloc);
    for field in fields {
        copies.push(Field {
            name: field.name.share()?,
            is_const: field.is_const,
            ty: field.ty.copy(alloc)?,
        })?;
    }
    Ok(copies)
}

#[cycle(copies)]
fn copy_tuple(alloc: Global, tuple: &Tuple) -> Result<Tuple, NoMemory>
    ensures { IfOk result (λ p. p ≡ tuple.now) }
{
    Ok(Tuple {
        items: copy_types(alloc, tuple.items.as_slice())?,
        tail: Boxed::new(alloc, tuple.tail.get().copy(alloc)?)?,
    })
}

#[cycle(copies)]
fn copy_tuples(alloc: Global, tuples: &[Tuple]) -> Result<List<Tuple>, NoMemory>
    ensures { IfOk result (λ ps. ps ≡ tuples.now) }
{
    let mut copies = List::new(alloc);
    for tuple in tuples {
        copies.push(copy_tuple(alloc, tuple)?)?;
    }
    Ok(copies)
}

#[cycle(copies)]
fn copy_func(alloc: Global, func: &Func) -> Result<Func, NoMemory>
    ensures { IfOk result (λ f. f ≡ func.now) }
{
    Ok(Func {
        params: copy_tuple(alloc, &func.params)?,
        results: crate::Results {
            tuples: copy_tuples(alloc, func.results.tuples.as_slice())?,
        },
    })
}
