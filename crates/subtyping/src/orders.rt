ghost use Rattle.std.specs.Prelude.{◌≡◌, ◌↔◌, true, IfOk};
ghost use Rattle.tl_types.specs.Below.{IsBelow, IsSubtype};

use crate::sweep::decide;
use crate::{NoMemory, Rules, Ty};
use std::alloc::Global;
use tl_types::Interfaces;

/// What compares types. It keeps nothing from one call to the next, so an answer depends on the types and interfaces alone.
#[derive(Debug, Drop)]
pub struct Orders {
    alloc: Global,
}

impl Orders {
    /// Takes no memory yet; later forms may.
    pub fn new(alloc: Global) -> Result<Orders, NoMemory> {
        Ok(Orders { alloc })
    }

    /// Whether type `a` is a subtype of type `b`. A number past the interfaces stands for the record without fields.
    pub fn is_subtype(&mut self, interfaces: &Interfaces, a: &Ty, b: &Ty) -> Result<bool, NoMemory>
        ensures { IfOk result (λ yes. (yes ≡ true) ↔ IsSubtype interfaces.now.bodies a.now b.now) }
    {
        is_below(self.alloc, false, interfaces, a, b)
    }
}

/// Whether type `a` is below type `b` in plain subtyping or, where `loose`, in consistent subtyping.
pub fn is_below(
    alloc: Global,
    loose: bool,
    interfaces: &Interfaces,
    a: &Ty,
    b: &Ty,
) -> Result<bool, NoMemory>
    ensures { IfOk result (λ yes. (yes ≡ true) ↔ IsBelow loose interfaces.now.bodies a.now b.now) }
{
    let nil = Ty::Nil;
    let rules = Rules {
        loose,
        bodies: interfaces.bodies.as_slice(),
        nil: &nil,
    };
    decide(alloc, rules, a, b)
}
