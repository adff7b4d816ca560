use super::*;
use std::test::Fail;
use subtyping::Orders;
use tl_base::List;
use tl_types::{Field, Text};

fn record(alloc: Global, ty: Ty) -> Result<Ty, NoMemory> {
    let mut fields = List::new(alloc);
    fields.push(Field {
        name: Text::from_slice(alloc, b"x")?,
        is_const: false,
        ty,
    })?;
    Ok(Ty::Rec(fields))
}

#[test]
fn flows_are_those_of_the_table(rt: HostRuntime) -> Result<(), Fail> {
    let alloc = rt.alloc();
    let interfaces = Interfaces {
        bodies: List::new(alloc),
    };
    for (from, to, wanted) in [
        (Ty::Any, Ty::Int, Flow::Crossing),
        (Ty::Int, Ty::Any, Flow::Plain),
        (Ty::Any, Ty::Union(List::new(alloc)), Flow::Crossing),
        (
            record(alloc, Ty::Any)?,
            record(alloc, Ty::Int)?,
            Flow::Crossing,
        ),
        (
            record(alloc, Ty::IntLit(1))?,
            record(alloc, Ty::Int)?,
            Flow::No,
        ),
        (
            record(alloc, Ty::Int)?,
            record(alloc, Ty::Int)?,
            Flow::Plain,
        ),
        (Ty::Iface(0), Ty::Rec(List::new(alloc)), Flow::Plain),
        (Ty::Int, Ty::Str, Flow::No),
    ] {
        let plain = Orders::new(alloc)?.is_subtype(&interfaces, &from, &to)?;
        let flow = Consistent::new(alloc)?.flow(&interfaces, &from, &to, plain)?;
        assert_eq!(rt; flow, wanted, "from {from:?} to {to:?}");
    }
    Ok(())
}
