ghost use Rattle.std.specs.Prelude.{◌≡◌, ◌+◌, ◌++◌, ◌∷◌, [], OnOk, IfOk};
ghost use Rattle.lua_code.specs.Generated.{new_cells as new_cells_of, set_slots as set_slots_of, begin_locals as begin_locals_of, proto_of};
ghost use Rattle.code_gen.specs.Work.{put_all, base, at_work, finished};

use crate::scope::Scope;
use crate::sums::sum;
use crate::writer::Writer;
use lua_code::{Capture, Instr, Proto};
use std::alloc::Global;
use tl_base::{List, NoMemory, Pos};

/// A function that waits while one inside it is written: its code so far and its scope.
#[derive(Drop)]
pub struct Outer<'a> {
    code: List<(Instr, Pos)>,
    scope: Scope<'a>,
}

/// What a function is besides its code.
#[derive(Drop)]
pub struct Header {
    pub params: u64,
    pub vararg: bool,
    pub slots: u64,
    pub captures: List<Capture>,
}

/// A function from its instructions with their places.
pub fn proto(alloc: Global, header: Header, placed: List<(Instr, Pos)>) -> Result<Proto, NoMemory>
    ensures { IfOk result (λ p. p ≡ proto_of header.params header.vararg header.captures header.slots placed) }
{
    let mut code = List::new(alloc);
    let mut places = List::new(alloc);
    for (instr, pos) in placed.into_vec() {
        code.push(instr)?;
        places.push(pos)?;
    }
    Ok(Proto {
        params: header.params,
        vararg: header.vararg,
        slots: header.slots,
        captures: header.captures,
        code,
        places,
    })
}

impl<'a> Writer<'a> {
    /// The values in so many slots go into cells of their own.
    #[tactic(auto, using(crate::proofs::Cells::cells_step, crate::proofs::Put::put_none))]
    pub fn new_cells(&mut self, first: u64, count: u64, pos: Pos) -> Result<(), NoMemory>
        ensures { OnOk result (self.new ≡ put_all (new_cells_of first count pos) self.old) }
    {
        for i in 0..count {
            self.put(Instr::NewCell(sum(first, i)?), pos)?;
        }
        Ok(())
    }

    /// So many values on the stack go into slots, the last one first.
    #[tactic(auto, using(crate::proofs::Cells::slots_step, crate::proofs::Put::put_none))]
    fn set_slots(&mut self, first: u64, count: u64, pos: Pos) -> Result<(), NoMemory>
        ensures { OnOk result (self.new ≡ put_all (set_slots_of first count pos) self.old) }
    {
        for i in 0..count {
            self.put(Instr::SetSlot(sum(first, count - 1 - i)?), pos)?;
        }
        Ok(())
    }

    /// So many values on the stack become locals, in cells of their own.
    #[tactic(auto, using(crate::proofs::Put::put_more))]
    pub fn begin_locals(&mut self, first: u64, count: u64, pos: Pos) -> Result<(), NoMemory>
        ensures { OnOk result (self.new ≡ put_all (begin_locals_of first count pos) self.old) }
    {
        self.set_slots(first, count, pos)?;
        self.new_cells(first, count, pos)
    }

    /// A function inside the one at work begins, with its scope.
    pub fn begin(&mut self, scope: Scope<'a>) -> Outer<'a>
        ensures work { self.new ≡ at_work [] scope.entry self.old }
        ensures code { result.code ≡ self.old.code }
        ensures scope { result.scope ≡ self.old.scope }
    {
        let outer_code = std::mem::replace(&mut self.code, List::new(self.alloc));
        let outer_scope = std::mem::replace(&mut self.scope, scope);
        Outer {
            code: outer_code,
            scope: outer_scope,
        }
    }

    /// The function at work is finished, and the one around it goes on behind its text. Gives its number.
    #[tactic(auto, unfolding(crate::specs::Work::next_from))]
    pub fn finish(&mut self, outer: Outer<'a>, header: Header) -> Result<u64, NoMemory>
        ensures work { OnOk result (self.new ≡ finished outer.entry.code outer.entry.scope header.params header.vararg header.slots header.captures self.old) }
        ensures number { IfOk result (λ n. n ≡ base self.old) }
    {
        let number = sum(self.first, self.protos.len() as u64)?;
        let next = self.next();
        let placed = std::mem::replace(&mut self.code, outer.code);
        self.scope = outer.scope;
        self.set_next(next);
        self.protos.push(proto(self.alloc, header, placed)?)?;
        Ok(number)
    }
}
