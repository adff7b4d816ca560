ghost use Rattle.std.specs.Prelude.{◌≡◌};
ghost use Rattle.tl_base.specs.Names.{code_name};
ghost use Rattle.tl_base.specs.declared.refusal.Failure.TheVariants as failure;

use crate::{NoMemory, Pos};

/// Why a program is refused before it runs. docs/CODES.md has each code's cause and cure.
#[derive(Clone, Copy, Debug, PartialEq, Eq)]
pub enum RefusalCode {
    /// a form of module that isn't built yet
    X1,
    /// a module that isn't given, at a call of `require` or a type name
    G1,
    /// modules that require one another in a circle
    G2,
    /// a file whose module has the name of an earlier one's
    G3,
    /// more than 256 files, or more than 16777216 bytes in all of them
    G4,
    /// a file word that ends in neither `.tl` nor `.lua`
    G5,
    /// a file that is missing
    G6,
    /// a byte that begins no token
    L1,
    /// a string or a comment that is not ended
    L2,
    /// a bad escape in a string
    L3,
    /// a numeral that is no integer numeral
    L4,
    /// a file longer than 1048576 bytes
    L5,
    /// a word that no module has there
    P1,
    /// `/` or `^`
    P2,
    /// `goto` or `::`
    P3,
    /// constructs too deep in one another
    P4,
    /// a word that only a typed module has there
    P5,
    /// a name that is neither a local nor a name of the library
    S1,
    /// an assignment to a name of the library
    S2,
    /// a table of the library other than before `.name`
    S3,
    /// `require` other than called with one literal string
    S4,
    /// more than 200 locals alive in one function
    S5,
    /// more than 255 locals of outer functions captured by one function
    S6,
    /// `break` outside a loop
    S7,
    /// `...` in a function without `...`
    S8,
    /// a type that is too large or too deep
    Y1,
    /// a type name that isn't known
    Y2,
    /// a field or a type name that is declared twice
    Y3,
    /// a type that no key can have
    Y4,
    /// an alias that leads to itself
    Y5,
    /// a value that doesn't flow to its place
    F1,
    /// an operand that the operation doesn't take
    F2,
    /// a call of what is no function
    F3,
    /// a field that the table doesn't have
    F4,
    /// a store into a `const` field
    F5,
    /// an assignment to a local whose table is followed
    F6,
    /// a class whose field doesn't fit
    F7,
    /// a key that doesn't fit
    F8,
    /// a local without a value
    F9,
    /// `setmetatable` or `rawset` on a typed table
    F10,
    /// a constructor of several forms
    F11,
    /// a union that was not narrowed
    F12,
    /// a module that may give `nil`
    F13,
    /// an operand of type `value`
    F14,
    /// values in a row that don't fit
    F15,
    /// an iterator that is no function
    F16,
    /// a table that can't be seen as the type that is asked for
    F17,
}

impl RefusalCode {
    /// The name that a report prints.
    pub fn name(self) -> &'static str
        ensures { result.now ≡ code_name self }
    {
        match self {
            RefusalCode::X1 => "X1",
            RefusalCode::G1 => "G1",
            RefusalCode::G2 => "G2",
            RefusalCode::G3 => "G3",
            RefusalCode::G4 => "G4",
            RefusalCode::G5 => "G5",
            RefusalCode::G6 => "G6",
            RefusalCode::L1 => "L1",
            RefusalCode::L2 => "L2",
            RefusalCode::L3 => "L3",
            RefusalCode::L4 => "L4",
            RefusalCode::L5 => "L5",
            RefusalCode::P1 => "P1",
            RefusalCode::P2 => "P2",
            RefusalCode::P3 => "P3",
            RefusalCode::P4 => "P4",
            RefusalCode::P5 => "P5",
            RefusalCode::S1 => "S1",
            RefusalCode::S2 => "S2",
            RefusalCode::S3 => "S3",
            RefusalCode::S4 => "S4",
            RefusalCode::S5 => "S5",
            RefusalCode::S6 => "S6",
            RefusalCode::S7 => "S7",
            RefusalCode::S8 => "S8",
            RefusalCode::Y1 => "Y1",
            RefusalCode::Y2 => "Y2",
            RefusalCode::Y3 => "Y3",
            RefusalCode::Y4 => "Y4",
            RefusalCode::Y5 => "Y5",
            RefusalCode::F1 => "F1",
            RefusalCode::F2 => "F2",
            RefusalCode::F3 => "F3",
            RefusalCode::F4 => "F4",
            RefusalCode::F5 => "F5",
            RefusalCode::F6 => "F6",
            RefusalCode::F7 => "F7",
            RefusalCode::F8 => "F8",
            RefusalCode::F9 => "F9",
            RefusalCode::F10 => "F10",
            RefusalCode::F11 => "F11",
            RefusalCode::F12 => "F12",
            RefusalCode::F13 => "F13",
            RefusalCode::F14 => "F14",
            RefusalCode::F15 => "F15",
            RefusalCode::F16 => "F16",
            RefusalCode::F17 => "F17",
        }
    }
}

/// A refusal and its place.
#[derive(Clone, Copy, Debug, PartialEq, Eq)]
pub struct Refusal {
    pub code: RefusalCode,
    pub pos: Pos,
}

/// Why a stage gave no result: the program is refused, or memory ran out.
#[derive(Clone, Copy, Debug, PartialEq, Eq)]
pub enum Failure {
    Refused(Refusal),
    NoMemory,
}

impl From<NoMemory> for Failure {
    ghost from_gives = { λ _ f. f ≡ failure.NoMemory };

    fn from(_error: NoMemory) -> Failure {
        Failure::NoMemory
    }
}
