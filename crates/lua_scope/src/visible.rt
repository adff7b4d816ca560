ghost use Rattle.std.specs.Prelude.{◌≡◌, ◌∷◌, [], ◌-◌, length, drop, option_map, OnOk, OnErr};
ghost use Rattle.lua_tree.specs.Scopes.Binding.{latest as latest_of};
ghost use Rattle.lua_scope.specs.Newest.{newest_in};

use indexmap::IndexMap;
use std::alloc::Global;
use std::marker::Model;
use tl_base::NoMemory;

/// A local by its number, and the number of the function that declares it.
#[derive(Clone, Copy, Debug)]
pub struct Local {
    pub number: u32,
    pub function: u32,
}

/// A local under its name, which is lent from the tree.
#[derive(Clone, Copy, Debug)]
pub struct Binding<'a> {
    pub name: &'a [u8],
    pub local: Local,
}

/// A local in scope, and the local of its name that it hides.
#[derive(Clone, Copy)]
struct Shown<'a> {
    binding: Binding<'a>,
    shadowed: Option<Local>,
}

/// The locals in scope. A name is looked up in constant time, however many there are.
#[derive(Drop)]
pub struct Visible<'a> {
    /// the latest local of each name
    latest: IndexMap<&'a [u8], Option<Local>>,
    shown: Vec<Shown<'a>>,
}

impl<'a> Model for Visible<'a> {
    ghost use Rattle.std.specs.Prelude.{List};
    ghost use Rattle.lua_tree.specs.Scopes.Places.{Binding as Bound};

    ghost Value = { List Bound };

    ghost use Rattle.lua_scope.specs.Shown.{bindings, IsIndexed};

    ghost view = { λ v. bindings v.shown.items };

    ghost invariant = { IsIndexed };
}

/// The latest local of a name.
fn newest<'a>(latest: &IndexMap<&'a [u8], Option<Local>>, name: &'a [u8]) -> Option<Local>
    ensures { result ≡ newest_in name.now latest.now }
{
    match latest.get(&name) {
        Some(local) => *local,
        None => None,
    }
}

impl<'a> Visible<'a> {
    ghost use Rattle.lua_scope.specs.Shown.{local_of, binding_of};

    /// No local is in scope yet. It takes no memory.
    pub fn new(alloc: Global) -> Visible<'a>
        ensures { result ≡ [] }
    {
        Visible {
            latest: IndexMap::new(alloc),
            shown: Vec::new(alloc),
        }
    }

    /// How many locals are in scope.
    pub fn len(&self) -> usize
        ensures { result ≡ length self.now }
    {
        self.shown.len()
    }

    /// The latest local of a name.
    pub fn find(&self, name: &'a [u8]) -> Option<Local>
        ensures { option_map local_of result ≡ latest_of name.now self.now }
    {
        newest(&self.latest, name)
    }

    /// A local comes into scope.
    pub fn enter(&mut self, binding: Binding<'a>) -> Result<(), NoMemory>
        ensures ok { OnOk result (self.new ≡ binding_of binding.entry ∷ self.old) }
        ensures err { OnErr result (self.new ≡ self.old) }
    {
        let shadowed = newest(&self.latest, binding.name);
        self.shown.push(Shown { binding, shadowed })?;
        match self.latest.insert(binding.name, Some(binding.local)) {
            Ok(_) => Ok(()),
            Err(_) => {
                self.shown.pop();
                Err(NoMemory)
            }
        }
    }

    /// The latest local goes out of scope.
    fn leave(&mut self)
        ensures { self.new ≡ drop 1 self.old }
    {
        if let Some(shown) = self.shown.pop() {
            let _ = self.latest.insert(shown.binding.name, shown.shadowed);
        }
    }

    /// All but so many locals that came first go out of scope.
    pub fn leave_to(&mut self, count: usize)
        ensures { self.new ≡ drop (length self.old - count) self.old }
    {
        while self.len() > count {
            self.leave();
        }
    }
}
