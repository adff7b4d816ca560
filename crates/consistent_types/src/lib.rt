//! How a type flows to another: plainly, as a crossing that is checked where the program runs, or not at all.
#![tactic(auto)]

ghost use Rattle.std.specs.Prelude.{◌≡◌, ◌↔◌, true, IfOk};
ghost use Rattle.tl_types.specs.Below.{IsSubtype, IsFlow};

use std::alloc::Global;
use subtyping::is_below;
use tl_base::NoMemory;
use tl_types::{Flow, Interfaces, Ty};

#[cfg(test)]
mod tests;

/// What compares types in the consistent order. It keeps nothing from one call to the next.
#[derive(Debug, Drop)]
pub struct Consistent {
    alloc: Global,
}

impl Consistent {
    /// Takes no memory yet; later forms may.
    pub fn new(alloc: Global) -> Result<Consistent, NoMemory> {
        Ok(Consistent { alloc })
    }

    /// How type `a` flows to type `b`, where `plain` says whether it is a subtype.
    pub fn flow(
        &mut self,
        interfaces: &Interfaces,
        a: &Ty,
        b: &Ty,
        plain: bool,
    ) -> Result<Flow, NoMemory>
        requires { (plain ≡ true) ↔ IsSubtype interfaces.now.bodies a.now b.now }
        ensures { IfOk result (IsFlow interfaces.now.bodies a.now b.now) }
    {
        if plain {
            return Ok(Flow::Plain);
        }
        if is_below(self.alloc, true, interfaces, a, b)? {
            return Ok(Flow::Crossing);
        }
        Ok(Flow::No)
    }
}
