use super::*;
use std::alloc::Global;
use std::test::Fail;
use tl_base::List;
use tl_types::{Field, Interfaces, Text};

fn field(alloc: Global, name: &[u8], ty: Ty) -> Result<Field, NoMemory> {
    Ok(Field {
        name: Text::from_slice(alloc, name)?,
        is_const: true,
        ty,
    })
}

// A record with the const fields `a` and `b`.
fn body(alloc: Global, first: Ty, second: Ty) -> Result<List<Field>, NoMemory> {
    let mut fields = List::new(alloc);
    fields.push(field(alloc, b"a", first)?)?;
    fields.push(field(alloc, b"b", second)?)?;
    Ok(fields)
}

fn either(alloc: Global, first: Ty, second: Ty) -> Result<Ty, NoMemory> {
    let mut members = List::new(alloc);
    members.push(first)?;
    members.push(second)?;
    Ok(Ty::Union(members))
}

// The interface or `nil`.
fn maybe(alloc: Global, number: u32) -> Result<Ty, NoMemory> {
    either(alloc, Ty::Iface(number), Ty::Nil)
}

// `A` with a next `A`; `B` with a next `B2`, which has a next `B` and values of the type given.
fn lists(alloc: Global, second: Ty) -> Result<Interfaces, NoMemory> {
    let mut bodies = List::new(alloc);
    bodies.push(body(alloc, Ty::Int, maybe(alloc, 0)?)?)?;
    bodies.push(body(alloc, Ty::Int, maybe(alloc, 2)?)?)?;
    bodies.push(body(alloc, second, maybe(alloc, 1)?)?)?;
    Ok(Interfaces { bodies })
}

#[test]
fn lists_of_lists_compare(rt: HostRuntime) -> Result<(), Fail> {
    let alloc = rt.alloc();
    for (second, wanted) in [(Ty::Int, true), (Ty::Str, false)] {
        let interfaces = lists(alloc, second)?;
        for (a, b) in [(0, 1), (1, 0)] {
            let answer = Orders::new(alloc)?.is_subtype(&interfaces, &Ty::Iface(a), &Ty::Iface(b))?;
            assert_eq!(rt; answer, wanted, "{a} below {b}");
        }
    }
    Ok(())
}

// `P {a: R, b: integer}`, `Q {a: S, b: ..}`, `R {a: P}` and `S {a: Q}`, where the last two have the field `b` of type `nil` beside.
fn crossed(alloc: Global, in_q: Ty) -> Result<Interfaces, NoMemory> {
    let mut bodies = List::new(alloc);
    bodies.push(body(alloc, Ty::Iface(2), Ty::Int)?)?;
    bodies.push(body(alloc, Ty::Iface(3), in_q)?)?;
    bodies.push(body(alloc, Ty::Iface(0), Ty::Nil)?)?;
    bodies.push(body(alloc, Ty::Iface(1), Ty::Nil)?)?;
    Ok(Interfaces { bodies })
}

#[test]
fn failed_alternatives_leave_no_trace(rt: HostRuntime) -> Result<(), Fail> {
    let alloc = rt.alloc();
    for (in_q, wanted) in [(Ty::Str, false), (Ty::Int, true)] {
        let interfaces = crossed(alloc, in_q)?;
        let given = Ty::Rec(body(alloc, Ty::Iface(0), Ty::Iface(2))?);
        let first = either(alloc, Ty::Iface(1), Ty::Rec(List::new(alloc)))?;
        let asked = Ty::Rec(body(alloc, first, Ty::Iface(3))?);
        assert_eq!(rt;
            Orders::new(alloc)?.is_subtype(&interfaces, &given, &asked)?,
            wanted
        );
    }
    Ok(())
}

// So many interfaces from a number on, each leading to the next one and the last to the first.
fn add_cycle(
    alloc: Global,
    bodies: &mut List<List<Field>>,
    first: u32,
    count: u32,
) -> Result<(), NoMemory> {
    for i in 1..count {
        bodies.push(body(alloc, Ty::Int, Ty::Iface(first.saturating_add(i)))?)?;
    }
    bodies.push(body(alloc, Ty::Int, Ty::Iface(first))?)?;
    Ok(())
}

#[test]
fn cycles_of_different_lengths_end(rt: HostRuntime) -> Result<(), Fail> {
    let alloc = rt.alloc();
    let mut bodies = List::new(alloc);
    add_cycle(alloc, &mut bodies, 0, 100)?;
    add_cycle(alloc, &mut bodies, 100, 101)?;
    let interfaces = Interfaces { bodies };
    assert!(rt; Orders::new(alloc)?.is_subtype(&interfaces, &Ty::Iface(0), &Ty::Iface(100))?);
    Ok(())
}
