use crate::{Chunk, LibName};
use tl_base::{Bytes, List, Pos};

/// What a use of a name means.
#[derive(Clone, Copy, Debug, PartialEq, Eq)]
pub enum Use {
    /// The local of this number.
    Local(u32),
    Lib(LibName),
}

/// A local of a module, a parameter or the variable of a loop.
#[derive(Clone, Copy, Debug, PartialEq, Eq)]
pub struct LocalInfo {
    /// The number of the function that declares it: 0 for the module's outermost block, then the bodies in order of place.
    pub function: u32,
    /// A function inside the one that declares it uses it.
    pub captured: bool,
    /// A statement assigns it, besides its declaration.
    pub assigned: bool,
    /// Such a statement stands in a function inside the one that declares it.
    pub assigned_in_closure: bool,
}

/// A call of `require`, at the place of the module's name.
#[derive(Debug, Drop)]
pub struct Require {
    pub pos: Pos,
    pub name: Bytes,
    /// The number of the module of that name, once it is bound.
    pub module: Option<u32>,
}

/// A module whose names are bound.
#[derive(Drop)]
pub struct Scoped {
    pub chunk: Chunk,
    /// What each use of a name means, by the numbers of the uses.
    pub uses: List<Use>,
    /// The locals in order of place; a method's `self` stands first among its parameters.
    pub locals: List<LocalInfo>,
    /// The calls of `require` in order of place.
    pub required: List<Require>,
}
