use super::*;
use lua_tree::LibName;
use std::alloc::Global;
use std::test::Fail;
use tl_base::{Bytes, CrossKind, List, NoMemory, Pos};

const LISTING: &str = "\
function 0 params 0 vararg 0 slots 2 captures 0
0:0 Closure 1
0:1 Int -9223372036854775808
0:2 Str 61ff00
0:3 Str 
0:4 Lib string.lower
0:5 ForPrep 3 18446744073709551615
0:6 Mark operand 2 4294967295
0:7 Turn
function 1 params 2 vararg 1 slots 3 captures 1
1:0 Return
";

const PLACE: Pos = Pos {
    module: 0,
    line: 1,
    column: 1,
};

fn proto(
    alloc: Global,
    params: u64,
    slots: u64,
    captures: List<Capture>,
    code: List<Instr>,
) -> Result<Proto, NoMemory> {
    let mut places = List::new(alloc);
    for _ in code.as_slice() {
        places.push(PLACE)?;
    }
    Ok(Proto {
        params,
        vararg: params == 2,
        slots,
        captures,
        code,
        places,
    })
}

fn first_code(alloc: Global) -> Result<List<Instr>, NoMemory> {
    let mut code = List::new(alloc);
    code.push(Instr::Closure(1))?;
    code.push(Instr::Int(i64::MIN))?;
    code.push(Instr::Str(Bytes::from_slice(alloc, b"a\xff\x00")?))?;
    code.push(Instr::Str(Bytes::new(alloc)))?;
    code.push(Instr::Lib(LibName::StringLower))?;
    code.push(Instr::ForPrep(3, u64::MAX))?;
    code.push(Instr::Mark(CrossKind::Operand, 2, u32::MAX))?;
    code.push(Instr::Turn)?;
    Ok(code)
}

fn sample(alloc: Global) -> Result<Code, NoMemory> {
    let mut functions = List::new(alloc);
    functions.push(proto(alloc, 0, 2, List::new(alloc), first_code(alloc)?)?)?;
    let mut captures = List::new(alloc);
    captures.push(Capture::Cell(1))?;
    let mut code = List::new(alloc);
    code.push(Instr::Return)?;
    functions.push(proto(alloc, 2, 3, captures, code)?)?;
    Ok(Code { functions })
}

#[test]
fn code_is_listed(rt: HostRuntime) -> Result<(), Fail> {
    let code = sample(rt.alloc())?;
    let text = listing(rt.alloc(), &code)?;
    assert_eq!(rt; text.as_slice(), LISTING.as_bytes());
    Ok(())
}

/// The line of an instruction, if there is one.
fn line_if_there(
    alloc: Global,
    code: &Code,
    function: u64,
    at: u64,
) -> Result<Option<Bytes>, NoMemory> {
    let instrs = match code.functions.get(function as usize) {
        Some(proto) => &proto.code,
        None => return Ok(None),
    };
    match instrs.get(at as usize) {
        Some(_) => Ok(Some(line(alloc, code, function, at)?)),
        None => Ok(None),
    }
}

#[test]
fn one_instruction_is_written(rt: HostRuntime) -> Result<(), Fail> {
    let code = sample(rt.alloc())?;
    let text = line_if_there(rt.alloc(), &code, 0, 2)?.ok_or("no line")?;
    assert_eq!(rt; text.as_slice(), b"0:2 Str 61ff00".as_slice());
    Ok(())
}

#[test]
fn laws_compute_nothing() {
    runs_end_once();
    code_has_the_meaning();
}
