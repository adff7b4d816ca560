ghost use Rattle.std.specs.Prelude.{◌≡◌, OnOk};

use crate::seen::Seen;
use crate::stack::Stack;
use std::alloc::Global;
use std::marker::Model;
use tl_base::NoMemory;

/// How many constructs a token may be inside of.
const DEEPEST: u32 = 200;

/// How high an expression or type may be.
pub(crate) const HIGHEST: u32 = 1000;

/// How many constructs a token is inside of, and the height of the highest expression or type that ends with it.
#[derive(Clone, Copy, Debug)]
pub(crate) struct Label {
    pub(crate) inside: u32,
    pub(crate) ends: u32,
}

impl Label {
    ghost use Rattle.std.specs.Prelude.{◌↔◌, IsTrue};
    ghost use Rattle.lua_parser.specs.Grammar.TooDeep.{IsOver, limits};
    ghost use Rattle.lua_parser.specs.Counting.Labels.{label_of};

    /// Whether it is over the limits.
    fn is_over(&self) -> bool
        ensures { IsTrue result ↔ IsOver limits (label_of self.now) }
    {
        self.inside > DEEPEST || self.ends > HIGHEST
    }
}

/// What is known behind some tokens: how many constructs are begun and not ended, how many begin with the next token, and the labels of the
/// tokens, the last one's first.
#[derive(Drop)]
pub(crate) struct Marks {
    begun: u32,
    starting: u32,
    labels: Stack<Label>,
}

impl Model for Marks {
    ghost use Rattle.std.specs.Prelude.{map};
    ghost use Rattle.lua_parser.specs.Grammar.Depth.{Reached};
    ghost use Rattle.lua_parser.specs.Counting.Labels.{label_of};

    ghost Value = { Reached };

    ghost view = { λ m. record { begun = m.begun; starting = m.starting; labels = map label_of m.labels } };
}

impl Marks {
    ghost use Rattle.std.specs.Prelude.{◌≡◌, OnOk, reverse};
    ghost use Rattle.lua_parser.specs.Grammar.TooDeep.{limits};
    ghost use Rattle.lua_parser.specs.Counting.Verdict.{IsFirst};
    ghost use Rattle.lua_parser.specs.Words.{Word};
    ghost use Rattle.lua_parser.specs.Grammar.Depth.{at_start, word, begins, ends, reaches};
    ghost use Rattle.lua_parser.specs.Counting.Count.{reaches_before};

    pub(crate) fn new(alloc: Global) -> Marks
        ensures { result ≡ at_start }
    {
        Marks {
            begun: 0,
            starting: 0,
            labels: Stack::new(alloc),
        }
    }

    /// A construct begins with the next token.
    pub(crate) fn begin(&mut self) -> Result<(), NoMemory>
        ensures { OnOk result (self.new ≡ begins self.old) }
    {
        self.starting = self.starting.checked_add(1).ok_or(NoMemory)?;
        Ok(())
    }

    /// A construct ended with the last token.
    pub(crate) fn end(&mut self)
        ensures { self.new ≡ ends self.old }
    {
        self.begun = self.begun.saturating_sub(1);
    }

    /// An expression or type of this height ended with the last token.
    pub(crate) fn tell(&mut self, height: u32) -> Result<(), NoMemory>
        ensures { OnOk result (self.new ≡ reaches height self.old) }
    {
        if let Some(last) = self.labels.pop() {
            self.labels.push(Label {
                inside: last.inside,
                ends: last.ends.max(height),
            })?;
        }
        Ok(())
    }

    /// A type of this height ended with the token before the last.
    pub(crate) fn tell_before(&mut self, height: u32) -> Result<(), NoMemory>
        ensures { OnOk result (self.new ≡ reaches_before height self.old) }
    {
        if let Some(last) = self.labels.pop() {
            self.tell(height)?;
            self.labels.push(last)?;
        }
        Ok(())
    }

    /// A token is taken.
    pub(crate) fn take(&mut self, seen: &Seen<'_>) -> Result<(), NoMemory>
        ensures { OnOk result ((w : Word) → w.kind ≡ seen.now → self.new ≡ word w self.old) }
    {
        let inside = self.begun;
        let begun = inside.checked_add(self.starting).ok_or(NoMemory)?;
        let opened = if seen.opens() { 1 } else { 0 };
        let closed = if seen.closes() { 1 } else { 0 };
        self.begun = begun
            .checked_add(opened)
            .ok_or(NoMemory)?
            .saturating_sub(closed);
        self.starting = 0;
        self.labels.push(Label { inside, ends: 0 })
    }

    /// The number of the first token that is over the limits.
    pub(crate) fn first_over(&self) -> Option<usize>
        ensures { IsFirst limits (reverse self.now.labels) result }
    {
        for (number, label) in self.labels.as_slice().iter().enumerate() {
            if label.is_over() {
                return Some(number);
            }
        }
        None
    }
}
