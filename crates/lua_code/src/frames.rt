use lua_values::{Value, Values};

/// What a slot of a function at work holds.
#[derive(Drop)]
pub enum Slot {
    Held(Value),
    /// The number of a cell.
    Cell(u64),
}

/// What stands on the stack of a function at work.
#[derive(Drop)]
pub enum Item {
    One(Value),
    Many(Values),
}
