use crate::{Event, Machine};
use lua_code::{Code, Instr, Proto};
use std::alloc::Global;
use std::test::Fail;
use tl_base::{Bytes, List, ModuleKind, NoMemory, Pos};

/// A machine for a function that ends at once.
fn ends_at_once(alloc: Global, turns: u64) -> Result<Machine, NoMemory> {
    let place = Pos {
        module: 0,
        line: 1,
        column: 1,
    };
    let mut code = List::new(alloc);
    let mut places = List::new(alloc);
    code.push(Instr::Pack(0))?;
    places.push(place)?;
    code.push(Instr::Return)?;
    places.push(place)?;
    let mut functions = List::new(alloc);
    functions.push(Proto {
        params: 0,
        vararg: false,
        slots: 0,
        captures: List::new(alloc),
        code,
        places,
    })?;
    let mut files = List::new(alloc);
    files.push(Bytes::from_slice(alloc, b"main.lua")?)?;
    let mut kinds = List::new(alloc);
    kinds.push(ModuleKind::Untyped)?;
    Machine::new(alloc, Code { functions }, files, kinds, turns, 20)
}

#[test]
fn a_program_ends(rt: HostRuntime) -> Result<(), Fail> {
    let mut machine = ends_at_once(rt.alloc(), 1)?;
    assert_eq!(rt; machine.turns_left(), 1);
    assert!(rt; matches!(machine.advance()?, Event::Done));
    assert!(rt; matches!(machine.advance()?, Event::Done));
    assert_eq!(rt; machine.turns_left(), 0);
    assert_eq!(rt; machine.trace().len(), 2);
    Ok(())
}

#[test]
fn a_program_needs_a_turn(rt: HostRuntime) -> Result<(), Fail> {
    let mut machine = ends_at_once(rt.alloc(), 0)?;
    assert!(rt; matches!(machine.advance()?, Event::Spent));
    assert!(rt; matches!(machine.advance()?, Event::Spent));
    assert!(rt; machine.first_crossing().is_none());
    Ok(())
}
