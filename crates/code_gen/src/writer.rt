ghost use Rattle.std.specs.Prelude.{◌≡◌, length, OnOk, IfOk};
ghost use Rattle.lua_code.specs.Generated.{read_use, use_in, captures_in, inside};
ghost use Rattle.code_gen.specs.Work.{put as put_one, patched, skip as skipped, free_from, next_from, declaring, leaving};

use crate::scope::Scope;
use lua_code::{Capture, Instr, Proto};
use std::alloc::Global;
use std::marker::Model;
use tl_base::{Bytes, List, NoMemory, Pos};

/// The code of a program while it is written.
#[derive(Drop)]
pub struct Writer<'a> {
    pub alloc: Global,
    /// the number of the first function inside a module
    pub first: u64,
    /// the functions that are finished
    pub protos: List<Proto>,
    /// the instructions of the function at work, each with its place
    pub code: List<(Instr, Pos)>,
    pub scope: Scope<'a>,
}

impl<'a> Model for Writer<'a> {
    ghost use Rattle.code_gen.specs.Work.{Work};

    ghost Value = { Work };

    ghost view = { λ w. record { first = w.first; protos = w.protos; code = w.code; scope = w.scope } };
}

impl<'a> Writer<'a> {
    /// Where the next instruction stands.
    pub fn place(&self) -> u64
        ensures { result ≡ length self.now.code }
    {
        self.code.len() as u64
    }

    /// The first free slot.
    pub fn free(&self) -> u64
        ensures { result ≡ self.now.scope.free }
    {
        self.scope.free()
    }

    /// How many locals the module's text declares before this place.
    pub fn next(&self) -> u64
        ensures { result ≡ self.now.scope.next }
    {
        self.scope.next()
    }

    /// How many of the function's own locals are in scope.
    pub fn count(&self) -> usize
        ensures { result ≡ length self.now.scope.own }
    {
        self.scope.count()
    }

    /// A copy of a text.
    pub fn copy_of(&self, text: &Bytes) -> Result<Bytes, NoMemory>
        ensures { IfOk result (λ copy. copy ≡ text.now) }
    {
        Bytes::from_slice(self.alloc, text.as_slice())
    }

    /// The instruction that gives the value of a use.
    pub fn read(&self, number: u32) -> Instr
        ensures { result ≡ read_use self.now.scope (use_in self.now.scope number) }
    {
        self.scope.read(number)
    }

    /// What a closure captures here.
    pub fn captures(&self) -> Result<List<Capture>, NoMemory>
        ensures { IfOk result (λ captures. captures ≡ captures_in self.now.scope) }
    {
        self.scope.captures(self.alloc)
    }

    /// The scope of a function's body, with so many parameters.
    pub fn inside(&self, params: u64) -> Result<Scope<'a>, NoMemory>
        ensures { IfOk result (λ inner. inner ≡ inside params self.now.scope) }
    {
        self.scope.inside(self.alloc, params)
    }

    /// One instruction more.
    #[tactic(auto, unfolding(crate::specs::Work::put_all))]
    pub fn put(&mut self, instr: Instr, pos: Pos) -> Result<(), NoMemory>
        ensures { OnOk result (self.new ≡ put_one instr pos self.old) }
    {
        self.code.push((instr, pos))?;
        Ok(())
    }

    /// The instruction at a place becomes this one, at this position. Nothing changes past the end.
    #[tactic(auto, unfolding(crate::specs::Work::patched))]
    pub fn patch(&mut self, at: u64, instr: Instr, pos: Pos)
        ensures { self.new ≡ patched at instr pos self.old }
    {
        let mut code = std::mem::replace(&mut self.code, List::new(self.alloc)).into_vec();
        if at < code.len() as u64 {
            code[at as usize] = (instr, pos);
        }
        self.code = List::from_vec(code);
    }

    /// A text that declares so many locals is passed.
    #[tactic(auto, unfolding(crate::specs::Work::skip))]
    pub fn skip(&mut self, count: u64) -> Result<(), NoMemory>
        ensures { OnOk result (self.new ≡ skipped count self.old) }
    {
        self.scope.skip(count)
    }

    /// So many locals are declared before this place.
    #[tactic(auto, unfolding(crate::specs::Work::next_from))]
    pub fn set_next(&mut self, next: u64)
        ensures { self.new ≡ next_from next self.old }
    {
        self.scope.set_next(next);
    }

    /// Slots are free from this one on.
    #[tactic(auto, unfolding(crate::specs::Work::free_from))]
    pub fn set_free(&mut self, free: u64)
        ensures { self.new ≡ free_from free self.old }
    {
        self.scope.set_free(free);
    }

    /// So many locals, numbered from the first on, come into scope in the first free slots.
    #[tactic(auto, unfolding(crate::specs::Work::declaring))]
    pub fn declare(&mut self, count: u64, first: u64) -> Result<(), NoMemory>
        ensures { OnOk result (self.new ≡ declaring count first self.old) }
    {
        self.scope.enter(count, first)
    }

    /// All but so many locals that came first go out of scope, and slots are free from this one on.
    #[tactic(auto, unfolding(crate::specs::Work::leaving))]
    pub fn leave(&mut self, count: usize, free: u64)
        ensures { self.new ≡ leaving count free self.old }
    {
        self.scope.leave(count, free);
    }
}
