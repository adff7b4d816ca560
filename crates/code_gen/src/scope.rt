ghost use Rattle.std.specs.Prelude.{◌≡◌, ◌+◌, ◌-◌, ◌++◌, nat_eq, drop, length, map, reverse, IfOk, OnOk};
ghost use Rattle.std.specs.Map.{lookup, keys_of};
ghost use Rattle.lua_code.specs.Generated.{captured_from, read_local, write_local, read_use, write_use, use_in, past, in_slots, captures_in, outer_from, inner_captured, inside, module_scope};
ghost use Rattle.lua_code.specs.declared.code.Capture.TheVariants as capture;
ghost use Rattle.code_gen.specs.Work.{entered, left};

use crate::sums::sum;
use lua_code::{Capture, Instr};
use lua_tree::{Scoped, Use};
use std::alloc::Global;
use std::marker::Model;
use tl_base::{List, NoMemory};

/// The locals in scope at a place of a function: its own with their slots, and those of the functions around it, which it captures.
#[derive(Drop)]
pub struct Scope<'a> {
    scoped: &'a Scoped,
    /// locals with their slots, the innermost last
    own: Vec<(u64, u64)>,
    /// the innermost first
    captured: Vec<u64>,
    /// the first free slot
    free: u64,
    /// how many locals the module's text declares before this place
    next: u64,
}

impl<'a> Model for Scope<'a> {
    ghost use Rattle.std.specs.Prelude.{reverse};
    ghost use Rattle.lua_code.specs.Generated.{Scope as Around};
    ghost use Rattle.code_gen.specs.Work.{names_in};

    ghost Value = { Around };

    ghost view = { λ s. record { names = names_in s.scoped.now; own = reverse s.own.items; captured = s.captured.items; free = s.free; next = s.next } };
}

/// The slot of the innermost entry of a local.
fn slot_in(own: &[(u64, u64)], local: u64) -> Option<u64>
    ensures { result ≡ lookup (nat_eq local) (reverse own.now) }
{
    let mut found = None;
    for (x, slot) in own {
        if *x == local {
            found = Some(*slot);
        }
    }
    found
}

/// Where a local stands among the captured ones.
fn index_in(captured: &[u64], local: u64) -> Option<u64>
    ensures { result ≡ captured_from 0 local captured.now }
{
    for (i, x) in captured.iter().enumerate() {
        if *x == local {
            return Some(i as u64);
        }
    }
    None
}

/// So many locals, numbered from the first on, come into scope in the slots from one on.
#[tactic(auto, using(crate::proofs::Scopes::entered_step))]
fn enter_all(own: &mut Vec<(u64, u64)>, count: u64, first: u64, slot: u64) -> Result<(), NoMemory>
    ensures { OnOk result (reverse own.new.items ≡ in_slots count first slot (reverse own.old.items)) }
{
    for i in 0..count {
        own.push((sum(first, i)?, sum(slot, i)?))?;
    }
    Ok(())
}

/// The slots of a function's own locals, the innermost first.
fn own_slots(alloc: Global, own: &[(u64, u64)]) -> Result<Vec<u64>, NoMemory>
    ensures { IfOk result (λ slots. slots.items ≡ map (λ o. o.1) (reverse own.now)) }
{
    let mut slots = Vec::new(alloc);
    for (_, slot) in own.iter().rev() {
        slots.push(*slot)?;
    }
    Ok(slots)
}

/// The cells of a function's own locals, the innermost first.
#[tactic(auto, using(crate::proofs::Scopes::cells_of_slots))]
fn own_cells(alloc: Global, own: &[(u64, u64)]) -> Result<List<Capture>, NoMemory>
    ensures { IfOk result (λ captures. captures ≡ map (λ o. capture.Cell o.1) (reverse own.now)) }
{
    let slots = own_slots(alloc, own)?;
    let mut captures = List::new(alloc);
    for slot in &slots {
        captures.push(Capture::Cell(*slot))?;
    }
    Ok(captures)
}

/// The cells of captured locals are captured again.
#[tactic(auto, using(crate::proofs::Scopes::outer_step))]
fn capture_outer(captured: &[u64], captures: &mut List<Capture>) -> Result<(), NoMemory>
    ensures { OnOk result (captures.new ≡ captures.old ++ outer_from 0 captured.now) }
{
    for (i, _) in captured.iter().enumerate() {
        captures.push(Capture::Outer(i as u64))?;
    }
    Ok(())
}

impl<'a> Scope<'a> {
    ghost use Rattle.code_gen.specs.Work.{names_in};

    /// The scope at the beginning of a module. It takes no memory.
    pub fn new(alloc: Global, scoped: &'a Scoped) -> Scope<'a>
        ensures { result ≡ module_scope (names_in scoped.now) }
    {
        Scope {
            scoped,
            own: Vec::new(alloc),
            captured: Vec::new(alloc),
            free: 0,
            next: 0,
        }
    }

    /// The first free slot.
    pub fn free(&self) -> u64
        ensures { result ≡ self.now.free }
    {
        self.free
    }

    /// Slots are free from this one on.
    pub fn set_free(&mut self, free: u64)
        ensures { self.new ≡ record self.old { free = free } }
    {
        self.free = free;
    }

    /// How many locals the module's text declares before this place.
    pub fn next(&self) -> u64
        ensures { result ≡ self.now.next }
    {
        self.next
    }

    /// So many locals are declared before this place.
    pub fn set_next(&mut self, next: u64)
        ensures { self.new ≡ record self.old { next = next } }
    {
        self.next = next;
    }

    /// How many of the function's own locals are in scope.
    pub fn count(&self) -> usize
        ensures { result ≡ length self.now.own }
    {
        self.own.len()
    }

    /// A text that declares so many locals is passed.
    pub fn skip(&mut self, count: u64) -> Result<(), NoMemory>
        ensures { OnOk result (self.new ≡ past count self.old) }
    {
        self.next = sum(self.next, count)?;
        Ok(())
    }

    /// So many locals, numbered from the first on, come into scope in the first free slots.
    pub fn enter(&mut self, count: u64, first: u64) -> Result<(), NoMemory>
        ensures { OnOk result (self.new ≡ entered count first self.old) }
    {
        enter_all(&mut self.own, count, first, self.free)?;
        self.free = sum(self.free, count)?;
        Ok(())
    }

    /// All but so many locals that came first go out of scope, and slots are free from this one on.
    #[tactic(auto, using(crate::proofs::Scopes::first_left))]
    pub fn leave(&mut self, count: usize, free: u64)
        ensures { self.new ≡ left count free self.old }
    {
        self.own.truncate(count);
        self.free = free;
    }

    fn read_local(&self, local: u64) -> Instr
        ensures { result ≡ read_local self.now local }
    {
        match slot_in(&self.own, local) {
            Some(slot) => Instr::GetCell(slot),
            None => match index_in(&self.captured, local) {
                Some(index) => Instr::GetUp(index),
                None => Instr::Nil,
            },
        }
    }

    fn write_local(&self, local: u64) -> Instr
        ensures { result ≡ write_local self.now local }
    {
        match slot_in(&self.own, local) {
            Some(slot) => Instr::SetCell(slot),
            None => match index_in(&self.captured, local) {
                Some(index) => Instr::SetUp(index),
                None => Instr::Pop,
            },
        }
    }

    /// What a use of a name means, by the use's number.
    pub fn use_in(&self, number: u32) -> Option<Use>
        ensures { result ≡ use_in self.now number }
    {
        self.scoped.uses.get(number as usize).copied()
    }

    /// The instruction that gives the value of a use.
    pub fn read(&self, number: u32) -> Instr
        ensures { result ≡ read_use self.now (use_in self.now number) }
    {
        match self.use_in(number) {
            Some(Use::Local(local)) => self.read_local(u64::from(local)),
            Some(Use::Lib(name)) => Instr::Lib(name),
            None => Instr::Nil,
        }
    }

    /// The instruction that stores a value into a use.
    pub fn write(&self, number: u32) -> Instr
        ensures { result ≡ write_use self.now (use_in self.now number) }
    {
        match self.use_in(number) {
            Some(Use::Local(local)) => self.write_local(u64::from(local)),
            Some(Use::Lib(_)) | None => Instr::Pop,
        }
    }

    /// What a closure captures here: all locals in scope.
    pub fn captures(&self, alloc: Global) -> Result<List<Capture>, NoMemory>
        ensures { IfOk result (λ captures. captures ≡ captures_in self.now) }
    {
        let mut captures = own_cells(alloc, &self.own)?;
        capture_outer(&self.captured, &mut captures)?;
        Ok(captures)
    }

    /// The numbers of all locals in scope, the innermost first.
    fn inner_captured(&self, alloc: Global) -> Result<Vec<u64>, NoMemory>
        ensures { IfOk result (λ locals. locals.items ≡ inner_captured self.now) }
    {
        let mut locals = Vec::new(alloc);
        for (local, _) in self.own.iter().rev() {
            locals.push(*local)?;
        }
        locals.extend_from_slice(&self.captured)?;
        Ok(locals)
    }

    /// The scope of a function's body, with so many parameters.
    pub fn inside(&self, alloc: Global, params: u64) -> Result<Scope<'a>, NoMemory>
        ensures { IfOk result (λ inner. inner ≡ inside params self.now) }
    {
        let mut inner = Scope {
            scoped: self.scoped,
            own: Vec::new(alloc),
            captured: self.inner_captured(alloc)?,
            free: 0,
            next: self.next,
        };
        inner.enter(params, self.next)?;
        inner.skip(params)?;
        Ok(inner)
    }
}
