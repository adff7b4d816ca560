ghost use Rattle.std.specs.Prelude.{◌≡◌, ◌∷◌, ◌++◌, [], Some, None, map, reverse, nat_lt, filter, option_map, if◌then◌else◌, OnOk, IfOk};
ghost use Rattle.lua_tree.specs.Scopes.Resolved.{first_place};
ghost use Rattle.lua_tree.specs.Scopes.Binding.{latest, captured_by, crossed};

use crate::captures::Captures;
use crate::visible::{Binding, Local, Visible};
use std::alloc::Global;
use std::marker::Model;
use tl_base::NoMemory;

/// What a place is like, the locals in scope aside.
#[derive(Clone, Copy, Debug)]
pub struct Standing {
    /// how many locals of the innermost function are alive
    pub alive: u32,
    /// the number of the innermost function
    pub function: u32,
    pub in_loop: bool,
    /// whether the innermost function has `...`
    pub has_rest: bool,
}

impl Standing {
    ghost use Rattle.lua_scope.specs.Around.{standing_of};

    /// The beginning of a module: its outermost block is function 0, which has `...`.
    pub fn outermost() -> Standing
        ensures { result ≡ standing_of first_place }
    {
        Standing {
            alive: 0,
            function: 0,
            in_loop: false,
            has_rest: true,
        }
    }
}

/// The place where a block around begins, and how many locals are in scope there.
#[derive(Clone, Copy, Debug)]
struct Outer {
    visible: usize,
    standing: Standing,
}

/// A place, and the places where the blocks around it begin.
#[derive(Drop)]
pub struct Scopes<'a> {
    visible: Visible<'a>,
    here: Standing,
    /// from the outermost to the innermost
    around: Vec<Outer>,
}

impl<'a> Model for Scopes<'a> {
    ghost use Rattle.std.specs.Prelude.{reverse, length};
    ghost use Rattle.lua_scope.specs.Around.{Scopes as Around, place_at, unwound, Fits};

    ghost Value = { Around };

    ghost view = { λ s. record { place = place_at s.visible s.here; around = unwound s.visible (reverse s.around.items) } };

    ghost invariant = { λ s. Fits (length s.visible) (reverse s.around.items) };
}

/// A function captures a local, if it stands inside the function that declares it. False where that is one local too many.
fn cross(function: u32, local: Local, captures: &mut Captures) -> Result<bool, NoMemory>
    ensures { IfOk result (λ fits. captured_by local.number (filter (λ f. nat_lt local.function f) (function ∷ [])) captures.old ≡ (if fits then Some captures.new else None)) }
{
    if function > local.function {
        captures.capture(function, local.number)
    } else {
        Ok(true)
    }
}

/// The functions of the blocks around capture a local, if they stand inside the function that declares it.
fn cross_all(around: &[Outer], local: Local, captures: &mut Captures) -> Result<bool, NoMemory>
    ensures { IfOk result (λ fits. captured_by local.number (filter (λ f. nat_lt local.function f) (map (λ o. o.standing.function) around.now)) captures.old ≡ (if fits then Some captures.new else None)) }
{
    for outer in around {
        if !cross(outer.standing.function, local, captures)? {
            return Ok(false);
        }
    }
    Ok(true)
}

impl<'a> Scopes<'a> {
    ghost use Rattle.lua_scope.specs.Shown.{local_of, binding_of};
    ghost use Rattle.lua_scope.specs.Around.{place_at, standing_of, begun, finished, with_binding, with_bindings, with_standing};

    /// A place with no local in scope and no block around. It takes no memory.
    pub fn new(alloc: Global, here: Standing) -> Scopes<'a>
        ensures { result ≡ record { place = place_at [] here; around = [] } }
    {
        Scopes {
            visible: Visible::new(alloc),
            here,
            around: Vec::new(alloc),
        }
    }

    /// What the place is like.
    pub fn here(&self) -> Standing
        ensures { result ≡ standing_of self.now.place }
    {
        self.here
    }

    /// The latest local of a name.
    pub fn find(&self, name: &'a [u8]) -> Option<Local>
        ensures { option_map local_of result ≡ latest name.now self.now.place.visible }
    {
        self.visible.find(name)
    }

    /// A use of a local: each function between it and the declaration captures the local. False where that is one local too many.
    pub fn capture(&self, local: Local, captures: &mut Captures) -> Result<bool, NoMemory>
        ensures { IfOk result (λ fits. captured_by local.number (crossed (local_of local) self.now.place self.now.around) captures.old ≡ (if fits then Some captures.new else None)) }
    {
        if local.function == self.here.function {
            return Ok(true);
        }
        if !cross_all(&self.around, local, captures)? {
            return Ok(false);
        }
        cross(self.here.function, local, captures)
    }

    /// A scope begins, where the place is like this.
    pub fn begin(&mut self, here: Standing) -> Result<(), NoMemory>
        ensures { OnOk result (self.new ≡ begun here self.old) }
    {
        self.around.push(Outer {
            visible: self.visible.len(),
            standing: self.here,
        })?;
        self.here = here;
        Ok(())
    }

    /// The innermost scope ends, if there is one.
    pub fn finish(&mut self)
        ensures { self.new ≡ finished self.old }
    {
        if let Some(outer) = self.around.pop() {
            self.visible.leave_to(outer.visible);
            self.here = outer.standing;
        }
    }

    /// A local comes into scope.
    pub fn enter(&mut self, binding: Binding<'a>) -> Result<(), NoMemory>
        ensures { OnOk result (self.new ≡ with_binding (binding_of binding.entry) self.old) }
    {
        self.visible.enter(binding)?;
        Ok(())
    }

    /// Locals come into scope in their order. Without memory it is left open which of them are in scope.
    pub fn enter_all(&mut self, bindings: &[Binding<'a>]) -> Result<(), NoMemory>
        ensures { OnOk result (self.new ≡ with_bindings (map binding_of (reverse bindings.now)) self.old) }
    {
        for binding in bindings {
            self.enter(*binding)?;
        }
        Ok(())
    }

    /// The place becomes like this.
    pub fn set(&mut self, here: Standing)
        ensures { self.new ≡ with_standing here self.old }
    {
        self.here = here;
    }
}
