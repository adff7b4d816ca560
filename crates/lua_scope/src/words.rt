ghost use Rattle.std.specs.Prelude.{◌≡◌, ◌∷◌, ◌++◌, [], map, OnOk};
ghost use Rattle.lua_scope.specs.Seen.{event_of};

use std::alloc::Global;
use std::marker::Model;
use tl_base::{NoMemory, Pos};

/// A text at its place, lent from the tree.
#[derive(Clone, Copy, Debug)]
pub struct Word<'a> {
    pub pos: Pos,
    pub text: &'a [u8],
}

/// What a module's text says of names at one place.
#[derive(Clone, Copy, Debug)]
pub enum Event<'a> {
    /// A block begins.
    Block,
    /// A loop's variables and body begin.
    Loop,
    /// A function begins, with `...` or without.
    Function(bool),
    /// The innermost block, loop or function ends.
    Finish,
    /// A local's name, which isn't visible yet.
    Declare(Word<'a>),
    /// So many of the names that were declared last become visible.
    Appear(usize),
    UseName(Word<'a>),
    AssignName(Word<'a>),
    /// `name.key`
    UseField(Word<'a>, Word<'a>),
    AssignField(Word<'a>, Word<'a>),
    /// A name that is called with one literal string.
    CallText(Word<'a>, Word<'a>),
    /// `break`
    Leave(Pos),
    /// `...`
    Vararg(Pos),
}

/// What a module's text says of names, in order of place.
#[derive(Drop)]
pub struct Events<'a> {
    items: Vec<Event<'a>>,
}

impl<'a> Model for Events<'a> {
    ghost use Rattle.std.specs.Prelude.{List, map};
    ghost use Rattle.lua_tree.specs.Scopes.Events.{Event as Said};
    ghost use Rattle.lua_scope.specs.Seen.{event_of};

    ghost Value = { List Said };

    ghost view = { λ e. map event_of e.items.items };
}

impl<'a> Events<'a> {
    /// Nothing is said yet. It takes no memory.
    pub fn new(alloc: Global) -> Events<'a>
        ensures { result ≡ [] }
    {
        Events {
            items: Vec::new(alloc),
        }
    }

    /// Says one thing more.
    pub fn push(&mut self, event: Event<'a>) -> Result<(), NoMemory>
        ensures { OnOk result (self.new ≡ self.old ++ event_of event.entry ∷ []) }
    {
        self.items.push(event)?;
        Ok(())
    }

    /// All that was said, lent.
    pub fn as_slice(&self) -> &[Event<'a>]
        ensures { map event_of result.now ≡ self.now }
    {
        self.items.as_slice()
    }
}
