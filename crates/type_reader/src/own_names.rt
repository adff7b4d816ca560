ghost use Rattle.std.specs.Prelude.{◌≡◌, ◌∷◌, ◌++◌, [], not, IfOk, OnOk, OnErr, if◌then◌else◌};
ghost use Rattle.std.specs.List.{list_any};
ghost use Rattle.std.specs.Str.{bytes_eq};
ghost use Rattle.type_reader.specs.Names.{place_in};

use indexmap::IndexSet;
use std::alloc::Global;
use std::marker::Model;
use tl_base::NoMemory;

/// Names that are lent from the tree, each once, numbered from 0.
#[derive(Drop)]
pub struct OwnNames<'a> {
    names: IndexSet<&'a [u8]>,
}

impl<'a> Model for OwnNames<'a> {
    ghost use Rattle.std.specs.Prelude.{ℕ, List, map};

    ghost Value = { List (List ℕ) };

    ghost view = { λ o. map (λ k. k.now) o.names.keys };
}

impl<'a> OwnNames<'a> {
    /// No name yet. It takes no memory.
    pub fn new(alloc: Global) -> OwnNames<'a>
        ensures { result ≡ [] }
    {
        OwnNames {
            names: IndexSet::new(alloc),
        }
    }

    /// Puts a name at the end, where it isn't there yet, and says whether it was put there.
    pub fn add(&mut self, name: &'a [u8]) -> Result<bool, NoMemory>
        ensures new { IfOk result (λ b. b ≡ not (list_any (bytes_eq name.now) self.old)) }
        ensures added { IfOk result (λ b. self.new ≡ (if b then self.old ++ name.now ∷ [] else self.old)) }
    {
        let (_, is_new) = self.names.insert_full(name)?;
        Ok(is_new)
    }

    /// The number of a name.
    pub fn find(&self, name: &'a [u8]) -> Option<usize>
        ensures { result ≡ place_in self.now name.now }
    {
        self.names.get_index_of(&name)
    }
}
