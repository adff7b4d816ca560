ghost use Rattle.std.specs.Prelude.{◌≡◌};
ghost use Rattle.tl_base.specs.Names.{cross_name};

use crate::Pos;

/// Why a place is a crossing, in the order in which a report lists those of one place.
#[derive(Clone, Copy, Debug, PartialEq, Eq, PartialOrd, Ord)]
pub enum CrossKind {
    /// a value of unknown type flows to a typed place
    Place,
    /// an operation trusts an operand of unknown type
    Operand,
    /// a comparison has a side of unknown type
    Equal,
    /// an untyped module takes a typed one
    Expose,
}

impl CrossKind {
    /// The name that a report prints.
    pub fn name(self) -> &'static str
        ensures { result.now ≡ cross_name self }
    {
        match self {
            CrossKind::Place => "place",
            CrossKind::Operand => "operand",
            CrossKind::Equal => "equal",
            CrossKind::Expose => "expose",
        }
    }
}

/// A place where typed code trusts a value of unknown type. The order is that of the report: by place, then by kind.
#[derive(Clone, Copy, Debug, PartialEq, Eq, PartialOrd, Ord)]
pub struct Crossing {
    pub pos: Pos,
    pub kind: CrossKind,
}
