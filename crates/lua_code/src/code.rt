use lua_tree::LibName;
use tl_base::{Bytes, CrossKind, List, Pos};

/// The code of a program: one function for the block of each module, in the order of the modules, and then those of the bodies.
#[derive(Drop)]
pub struct Code {
    pub functions: List<Proto>,
}

/// The code of a function.
#[derive(Drop)]
pub struct Proto {
    /// How many parameters it has, which stand in its first slots.
    pub params: u64,
    /// Whether it takes further arguments, `...`.
    pub vararg: bool,
    pub slots: u64,
    /// Which cells a closure of this function captures, where it is made.
    pub captures: List<Capture>,
    pub code: List<Instr>,
    /// The place of each instruction, where what fails in it is reported.
    pub places: List<Pos>,
}

/// A cell that a closure captures of the function that makes it.
#[derive(Clone, Copy, Debug, PartialEq, Eq)]
pub enum Capture {
    /// The cell in this slot.
    Cell(u64),
    /// The captured cell of this number.
    Outer(u64),
}

/// An instruction. A function at work has slots, captured cells, and a stack of values and lists of values.
#[derive(Drop)]
pub enum Instr {
    Nil,
    True,
    False,
    Int(i64),
    Str(Bytes),
    Lib(LibName),
    GetSlot(u64),
    SetSlot(u64),
    /// Puts the value in a slot into a fresh cell, which the slot then holds.
    NewCell(u64),
    GetCell(u64),
    SetCell(u64),
    GetUp(u64),
    SetUp(u64),
    /// A closure of the function of this number.
    Closure(u64),
    /// The list of the further arguments.
    Rest,
    /// So many values become a list.
    Pack(u64),
    /// So many values and the list above them become a list.
    Cons(u64),
    First,
    Spread(u64),
    Dup,
    Pop,
    Call,
    Method(Bytes),
    Return,
    Require(u64),
    NewTable,
    Entry,
    Append(u64),
    Get,
    Put,
    Add,
    Sub,
    Mul,
    IDiv,
    Mod,
    BAnd,
    BOr,
    BXor,
    Shl,
    Shr,
    Concat,
    Eq,
    Lt,
    Le,
    Neg,
    BNot,
    Len,
    Not,
    Jump(u64),
    JumpIf(u64),
    JumpIfNot(u64),
    /// Goes on there with a true value on the stack, or drops a false one.
    KeepIf(u64),
    /// Goes on there with a false value on the stack, or drops a true one.
    KeepIfNot(u64),
    /// Begins the loop whose value, limit and step stand in three slots from the first on, or goes behind it.
    ForPrep(u64, u64),
    /// Steps the loop of these slots, and goes back for its next turn, or on.
    ForStep(u64, u64),
    /// The value on the stack has to be an integer.
    Bound,
    Turn,
    /// Passes a crossing of this kind, at a line and a column of the module of the instruction's own place.
    Mark(CrossKind, u32, u32),
}
