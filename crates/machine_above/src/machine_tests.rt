use lua_code::{Code, Instr, Proto};
use lua_machine::{Event, Machine, TraceStep};
use lua_tree::LibName;
use lua_values::Value;
use std::alloc::Global;
use std::test::Fail;
use tl_base::{Bytes, CrossKind, Crossing, List, ModuleKind, NoMemory, Pos};

/// The instructions of the codes below, without those that hold texts, so that they are copied freely.
#[derive(Clone, Copy)]
enum Op {
    Nil,
    True,
    Int(i64),
    Print,
    GetSlot(u64),
    SetSlot(u64),
    Closure(u64),
    Pack(u64),
    Call,
    Return,
    Add,
    Lt,
    Jump(u64),
    JumpIf(u64),
    Turn,
    Mark(CrossKind, u32, u32),
}

/// Ends at once.
const ENDS: [Op; 2] = [Op::Pack(0), Op::Return];

/// Prints a sum and a truth.
const PRINTS: [Op; 8] = [
    Op::Print,
    Op::Int(6),
    Op::Int(1),
    Op::Add,
    Op::True,
    Op::Pack(2),
    Op::Call,
    Op::Return,
];

/// Passes two crossings, and calls nil.
const FAILS: [Op; 5] = [
    Op::Mark(CrossKind::Operand, 2, 3),
    Op::Mark(CrossKind::Place, 4, 5),
    Op::Nil,
    Op::Pack(0),
    Op::Call,
];

/// Counts to a thousand, a turn for each number.
const COUNTS: [Op; 12] = [
    Op::Int(0),
    Op::SetSlot(0),
    Op::Jump(8),
    Op::Turn,
    Op::GetSlot(0),
    Op::Int(1),
    Op::Add,
    Op::SetSlot(0),
    Op::GetSlot(0),
    Op::Int(1000),
    Op::Lt,
    Op::JumpIf(3),
];

/// Calls the function of number 1, and leaves with its results.
const CALLS: [Op; 4] = [Op::Closure(1), Op::Pack(0), Op::Call, Op::Return];

/// The places of `COUNTS`, in the order that they are begun.
const STEPS: [u64; 20] = [
    0, 1, 2, 8, 9, 10, 11, 3, 4, 5, 6, 7, 8, 9, 10, 11, 3, 4, 5, 6,
];

const PLACE: Pos = Pos {
    module: 0,
    line: 1,
    column: 5,
};

/// The first crossing of `FAILS`.
const CROSSING: Crossing = Crossing {
    pos: Pos {
        module: 0,
        line: 2,
        column: 3,
    },
    kind: CrossKind::Operand,
};

fn instr_of(op: Op) -> Instr {
    match op {
        Op::Nil => Instr::Nil,
        Op::True => Instr::True,
        Op::Int(value) => Instr::Int(value),
        Op::Print => Instr::Lib(LibName::Print),
        Op::GetSlot(slot) => Instr::GetSlot(slot),
        Op::SetSlot(slot) => Instr::SetSlot(slot),
        Op::Closure(number) => Instr::Closure(number),
        Op::Pack(count) => Instr::Pack(count),
        Op::Call => Instr::Call,
        Op::Return => Instr::Return,
        Op::Add => Instr::Add,
        Op::Lt => Instr::Lt,
        Op::Jump(at) => Instr::Jump(at),
        Op::JumpIf(at) => Instr::JumpIf(at),
        Op::Turn => Instr::Turn,
        Op::Mark(kind, line, column) => Instr::Mark(kind, line, column),
    }
}

fn code_of(alloc: Global, ops: &[Op]) -> Result<List<Instr>, NoMemory> {
    let mut code = List::new(alloc);
    for op in ops {
        code.push(instr_of(*op))?;
    }
    Ok(code)
}

fn places_of(alloc: Global, ops: &[Op]) -> Result<List<Pos>, NoMemory> {
    let mut places = List::new(alloc);
    for _ in ops {
        places.push(PLACE)?;
    }
    Ok(places)
}

/// A function with four slots.
fn function(alloc: Global, ops: &[Op]) -> Result<Proto, NoMemory> {
    let code = code_of(alloc, ops)?;
    let places = places_of(alloc, ops)?;
    Ok(Proto {
        params: 0,
        vararg: false,
        slots: 4,
        captures: List::new(alloc),
        code,
        places,
    })
}

/// The block of one module, and a function in it of the same code.
fn functions_of(alloc: Global, ops: &[Op]) -> Result<List<Proto>, NoMemory> {
    let mut functions = List::new(alloc);
    for _ in 0..2 {
        functions.push(function(alloc, ops)?)?;
    }
    Ok(functions)
}

fn one<T: Drop>(alloc: Global, item: T) -> Result<List<T>, NoMemory> {
    let mut items = List::new(alloc);
    items.push(item)?;
    Ok(items)
}

fn files_of(alloc: Global) -> Result<List<Bytes>, NoMemory> {
    one(alloc, Bytes::from_slice(alloc, b"main.tl")?)
}

/// A machine for the block of one typed module, which is to trace 20 steps.
fn machine_for(alloc: Global, ops: &[Op], turns: u64) -> Result<Machine, NoMemory> {
    let files = files_of(alloc)?;
    let kinds = one(alloc, ModuleKind::Typed)?;
    let functions = functions_of(alloc, ops)?;
    Machine::new(alloc, Code { functions }, files, kinds, turns, 20)
}

/// Writes what an event tells.
fn write_event(text: &mut Bytes, event: &Event) -> Result<(), NoMemory> {
    match event {
        Event::Output(output) => text.extend(output.bytes()),
        Event::Raised(Value::Str(error)) => text.extend(error.bytes()),
        Event::Raised(_) => text.extend(b"raised"),
        Event::Done => text.extend(b"done"),
        Event::Spent => text.extend(b"spent"),
    }
}

/// The next events, each with a bar behind it.
fn events(alloc: Global, machine: &mut Machine, count: u64) -> Result<Bytes, NoMemory> {
    let mut text = Bytes::new(alloc);
    for _ in 0..count {
        let event = machine.advance()?;
        write_event(&mut text, &event)?;
        text.push(b'|')?;
    }
    Ok(text)
}

/// Whether the steps are these places of the first function.
fn are_steps(steps: &[TraceStep], places: &[u64]) -> bool {
    for (step, at) in steps.iter().zip(places.iter()) {
        if step.function != 0 || step.at != *at {
            return false;
        }
    }
    steps.len() == places.len()
}

/// Whether the next events are told so.
fn tells(alloc: Global, machine: &mut Machine, count: u64, told: &[u8]) -> Result<bool, NoMemory> {
    let text = events(alloc, machine, count)?;
    Ok(text.as_slice() == told)
}

/// Whether the first three events of the code, with so many turns, are told so.
fn begins(alloc: Global, ops: &[Op], turns: u64, told: &[u8]) -> Result<bool, NoMemory> {
    let mut machine = machine_for(alloc, ops, turns)?;
    tells(alloc, &mut machine, 3, told)
}

/// Whether a call of nil is told, and recorded with the first crossing.
fn records_a_call_of_nil(alloc: Global) -> Result<bool, NoMemory> {
    let mut machine = machine_for(alloc, &FAILS, 1)?;
    let call = b"main.tl:1:5: call of a nil|main.tl:1:5: call of a nil|";
    let told = tells(alloc, &mut machine, 2, call)?;
    let first = Some(CROSSING);
    let error = Some((PLACE, first));
    Ok(told && machine.first_crossing() == first && machine.first_kind_error() == error)
}

/// Whether the first steps of a run that spends three turns are traced.
fn traces_first_steps(alloc: Global) -> Result<bool, NoMemory> {
    let mut machine = machine_for(alloc, &COUNTS, 3)?;
    let told = tells(alloc, &mut machine, 1, b"spent|")?;
    Ok(told && machine.turns_left() == 0 && are_steps(machine.trace(), &STEPS))
}

/// Whether endless calls end with an error, after so many of them, that is none of kinds.
fn stops_endless_calls(alloc: Global) -> Result<bool, NoMemory> {
    let mut machine = machine_for(alloc, &CALLS, 100001)?;
    let told = tells(alloc, &mut machine, 1, b"main.tl:1:5: stack overflow|")?;
    Ok(told && machine.turns_left() == 1 && machine.first_kind_error().is_none())
}

#[test]
fn events_come_in_order_and_the_last_comes_again(rt: HostRuntime) -> Result<(), Fail> {
    let alloc = rt.alloc();
    assert!(rt; begins(alloc, &ENDS, 1, b"done|done|done|")?);
    assert!(rt; begins(alloc, &PRINTS, 1, b"7\ttrue\n|done|done|")?);
    assert!(rt; begins(alloc, &PRINTS, 0, b"spent|spent|spent|")?);
    Ok(())
}

#[test]
fn errors_of_kinds_are_recorded_with_the_first_crossing(rt: HostRuntime) -> Result<(), Fail> {
    assert!(rt; records_a_call_of_nil(rt.alloc())?);
    Ok(())
}

#[test]
fn the_first_steps_are_traced(rt: HostRuntime) -> Result<(), Fail> {
    assert!(rt; traces_first_steps(rt.alloc())?);
    Ok(())
}

#[test]
fn too_many_calls_run_at_once(rt: HostRuntime) -> Result<(), Fail> {
    assert!(rt; stops_endless_calls(rt.alloc())?);
    Ok(())
}
