ghost use Rattle.std.specs.Prelude.{◌≡◌, [], ◌∷◌, OnOk, MatchOption, ◌↔◌, IsTrue};
ghost use Rattle.lua_parser.specs.Stacks.{onto};

use std::alloc::Global;
use std::marker::Model;
use std::mem::replace;
use tl_base::{List, NoMemory};

/// What was put away, the last of it first. Contracts see it as a list.
#[derive(Drop)]
pub(crate) struct Stack<T> {
    items: Vec<T>,
}

impl<T> Model for Stack<T> {
    ghost use Rattle.std.specs.Prelude.{List as Seq};
    ghost use Rattle.std.specs.Coded.{coded_list};
    ghost use Rattle.std.specs.Prelude.{reverse};

    ghost Value = { Seq T };

    ghost coded = { coded_list T.code };

    ghost view = { λ it. reverse it.items.items };
}

impl<T> Stack<T> {
    ghost use Rattle.std.specs.Prelude.{◌≡◌, [], ◌↔◌, IsTrue, reverse};
    ghost use Rattle.lua_parser.specs.Stacks.{onto};

    pub(crate) fn new(alloc: Global) -> Stack<T>
        ensures { result ≡ [] }
    {
        Stack {
            items: Vec::new(alloc),
        }
    }

    /// The elements, the first of them first.
    pub(crate) fn into_list(self) -> List<T>
        ensures { result ≡ onto self [] }
    {
        let Stack { items } = self;
        List::from_vec(items)
    }

    /// All elements, which are no longer here.
    pub(crate) fn take(&mut self, alloc: Global) -> Stack<T>
        ensures taken { result ≡ self.old }
        ensures left { self.new ≡ [] }
    {
        replace(self, Stack::new(alloc))
    }

    /// The elements, the one put away first standing first.
    pub(crate) fn as_slice(&self) -> &[T]
        ensures { result.now ≡ reverse self.now }
    {
        &self.items
    }

    pub(crate) fn is_empty(&self) -> bool
        ensures { IsTrue result ↔ (self.now ≡ []) }
    {
        self.items.is_empty()
    }
}

impl<T: Drop> Stack<T> {
    ghost use Rattle.std.specs.Prelude.{◌≡◌, [], ◌∷◌, OnOk, MatchOption};

    pub(crate) fn push(&mut self, item: T) -> Result<(), NoMemory>
        ensures { OnOk result (self.new ≡ item ∷ self.old) }
    {
        self.items.push(item)?;
        Ok(())
    }

    pub(crate) fn pop(&mut self) -> Option<T>
        ensures { MatchOption result ((self.old ≡ []) × (self.new ≡ [])) (λ x. self.old ≡ x ∷ self.new) }
    {
        self.items.pop()
    }
}
