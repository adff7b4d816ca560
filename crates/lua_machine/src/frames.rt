ghost use Rattle.std.specs.Prelude.{◌≡◌, [], ◌∷◌, ◌<◌, slice_get, slice_set, vec_len, vec_capacity, MatchOption, IfOk, OnOk};
ghost use Rattle.std.specs.Option.{option_copied};
ghost use Rattle.lua_code.specs.Configurations.{calls_at_work};
ghost use Rattle.lua_machine.specs.Frames.{at_next, at_place, with_item, with_slot, with_more_slots, fresh, entered, Leaves};

use crate::closures::Cells;
use lua_code::{Item, Slot};
use lua_values::{Value, Values};
use std::alloc::Global;
use std::marker::Model;
use std::mem;
use tl_base::NoMemory;

/// A function at work without what it keeps in slots and on its stack, which stands behind what those below it keep.
#[derive(Drop)]
pub struct Head {
    pub function: u64,
    /// The place of its next instruction.
    pub at: u64,
    pub captured: Cells,
    /// Its further arguments.
    pub rest: Values,
    /// Where its slots begin.
    pub slots: usize,
    /// Where its stack begins.
    pub stack: usize,
}

/// The function that runs, and those that wait for the results of their calls. The slots of all stand in one vector, and so do their stacks.
#[derive(Drop)]
pub struct Frames {
    running: Head,
    waiting: Vec<Head>,
    slots: Vec<Slot>,
    stack: Vec<Item>,
}

/// Makes room for one item more.
#[inline(never)]
fn grow<T>(items: &mut Vec<T>) -> Result<(), NoMemory>
    ensures items { items.new.items ≡ items.old.items }
    ensures room { OnOk result (vec_len items.new < vec_capacity items.new) }
{
    items.reserve(1)?;
    Ok(())
}

/// Gives the slot at an index from 0 what it is to hold, if there is such a slot.
#[inline(always)]
fn put(slots: &mut [Slot], at: u64, slot: Slot)
    ensures { slots.new ≡ slice_set slots.old at slot }
{
    if (at as usize) < slots.len() {
        slots[at as usize] = slot;
    }
}

impl Model for Frames {
    ghost use Rattle.std.specs.Prelude.{reverse, length, ◌∷◌, IsTrue};
    ghost use Rattle.lua_machine.specs.Frames.{Activity};
    ghost use Rattle.lua_machine.specs.Windows.{activity_in, are_within};

    ghost Value = { Activity };

    ghost view = { λ f. activity_in f.running (reverse f.waiting.items) f.slots.items f.stack.items };

    ghost invariant = { λ f. IsTrue (are_within (f.running ∷ reverse f.waiting.items) (length f.slots.items) (length f.stack.items)) };
}

impl Frames {
    /// One function runs, which begins without its slots, and none waits.
    pub fn new(alloc: Global, function: u64, captured: Cells, rest: Values) -> Frames
        ensures { result ≡ record { frame = fresh function captured rest; levels = [] } }
    {
        Frames {
            running: Head {
                function,
                at: 0,
                captured,
                rest,
                slots: 0,
                stack: 0,
            },
            waiting: Vec::new(alloc),
            slots: Vec::new(alloc),
            stack: Vec::new(alloc),
        }
    }

    /// Which function runs.
    #[inline(always)]
    pub fn function(&self) -> u64
        ensures { result ≡ self.now.frame.function }
    {
        self.running.function
    }

    /// The place of its next instruction.
    #[inline(always)]
    pub fn at(&self) -> u64
        ensures { result ≡ self.now.frame.at }
    {
        self.running.at
    }

    /// Goes on to the next instruction.
    #[inline(always)]
    pub fn advance(&mut self) -> Result<(), NoMemory>
        ensures { OnOk result (self.new ≡ at_next self.old) }
    {
        self.running.at = self.running.at.checked_add(1).ok_or(NoMemory)?;
        Ok(())
    }

    /// Goes on at a place.
    #[inline(always)]
    pub fn jump(&mut self, to: u64)
        ensures { self.new ≡ at_place to self.old }
    {
        self.running.at = to;
    }

    /// Puts an item on the stack.
    #[inline(always)]
    pub fn push(&mut self, item: Item) -> Result<(), NoMemory>
        ensures { OnOk result (self.new ≡ with_item item self.old) }
    {
        if self.stack.len() >= self.stack.capacity() {
            grow(&mut self.stack)?;
        }
        self.stack.push_reserved(item);
        Ok(())
    }

    /// Takes the item on the top of the stack.
    #[inline(always)]
    pub fn pop(&mut self) -> Option<Item>
        ensures { MatchOption result ((self.old.frame.stack ≡ []) × (self.new ≡ self.old)) (λ item. self.old ≡ with_item item self.new) }
    {
        if self.stack.len() <= self.running.stack {
            return None;
        }
        self.stack.pop()
    }

    /// What a slot holds, if there is such a slot.
    #[inline(always)]
    pub fn slot(&self, at: u64) -> Option<&Slot>
        ensures { option_copied result ≡ slice_get self.now.frame.slots at }
    {
        self.slots.as_slice()[self.running.slots..].get(at as usize)
    }

    /// Gives a slot what it is to hold, if there is such a slot.
    #[inline(always)]
    pub fn set_slot(&mut self, at: u64, slot: Slot)
        ensures { self.new ≡ with_slot at slot self.old }
    {
        let own = self.slots.slice_mut(self.running.slots..);
        put(own, at, slot);
    }

    /// One slot more.
    #[inline(always)]
    pub fn push_slot(&mut self, slot: Slot) -> Result<(), NoMemory>
        ensures { OnOk result (self.new ≡ with_more_slots slot self.old) }
    {
        if self.slots.len() >= self.slots.capacity() {
            grow(&mut self.slots)?;
        }
        self.slots.push_reserved(slot);
        Ok(())
    }

    /// The number of a captured cell, if there is one.
    #[inline(always)]
    pub fn captured(&self, at: u64) -> Option<u64>
        ensures { result ≡ slice_get self.now.frame.captured at }
    {
        self.running.captured.get(at)
    }

    /// The further arguments, lent.
    pub fn rest(&self) -> &[Value]
        ensures { result.now ≡ self.now.frame.rest }
    {
        self.running.rest.as_slice()
    }

    /// How many functions wait.
    #[inline(always)]
    pub fn waiting(&self) -> usize
        ensures { result ≡ calls_at_work self.now.levels }
    {
        self.waiting.len()
    }

    /// A function begins, without its slots, and the one that ran waits for its results.
    #[inline(always)]
    pub fn enter(&mut self, function: u64, captured: Cells, rest: Values) -> Result<(), NoMemory>
        ensures { OnOk result (self.new ≡ entered (fresh function captured rest) self.old) }
    {
        let next = Head {
            function,
            at: 0,
            captured,
            rest,
            slots: self.slots.len(),
            stack: self.stack.len(),
        };
        let caller = mem::replace(&mut self.running, next);
        self.waiting.push(caller)?;
        Ok(())
    }

    /// The function that ran is done with, and the one that called it runs on, if there is one.
    #[inline(always)]
    pub fn leave(&mut self) -> bool
        ensures { Leaves result self.old self.new }
    {
        match self.waiting.pop() {
            Some(caller) => {
                self.slots.truncate(self.running.slots);
                self.stack.truncate(self.running.stack);
                self.running = caller;
                true
            }
            None => false,
        }
    }
}
