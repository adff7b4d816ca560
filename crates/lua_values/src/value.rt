ghost use Rattle.std.specs.Prelude.{◌≡◌, IfOk};
ghost use Rattle.lua_values.specs.Values.{same_value, value_writes};
ghost use Rattle.lua_values.specs.Sameness.{value_alike, same_value_equiv, same_value_per};
ghost use Rattle.lua_values.specs.declared.value.Value.TheVariants.{Nil};

use crate::Text;
use lua_tree::LibName;
use std::hash::{Hash, Hasher};
use tl_base::NoMemory;

/// A value of a program. Tables and closures are known by their numbers, which count from 1 in the order of making.
#[derive(Debug, Drop)]
pub enum Value {
    Nil,
    Bool(bool),
    Int(i64),
    Str(Text),
    Table(u64),
    Closure(u64),
    /// a function of the library
    Builtin(LibName),
}

impl Value {
    /// The same value once more; a string shares its bytes. It wants memory only where they have too many holders to count.
    pub fn copy(&self) -> Result<Value, NoMemory>
        ensures { IfOk result (λ value. value ≡ self.now) }
    {
        Ok(match self {
            Value::Nil => Value::Nil,
            Value::Bool(truth) => Value::Bool(*truth),
            Value::Int(number) => Value::Int(*number),
            Value::Str(text) => Value::Str(text.share()?),
            Value::Table(number) => Value::Table(*number),
            Value::Closure(number) => Value::Closure(*number),
            Value::Builtin(name) => Value::Builtin(*name),
        })
    }
}

impl PartialEq for Value {
    ghost eq = { same_value };

    ghost laws = { same_value_per };

    fn eq(&self, other: &Self) -> bool {
        match (self, other) {
            (Value::Nil, Value::Nil) => true,
            (Value::Bool(a), Value::Bool(b)) => *a == *b,
            (Value::Int(a), Value::Int(b)) => *a == *b,
            (Value::Str(a), Value::Str(b)) => a == b,
            (Value::Table(a), Value::Table(b)) => *a == *b,
            (Value::Closure(a), Value::Closure(b)) => *a == *b,
            (Value::Builtin(a), Value::Builtin(b)) => a.number() == b.number(),
            _ => false,
        }
    }
}

impl Eq for Value {
    ghost laws = { same_value_equiv };
}

impl Hash for Value {
    ghost hash_input = { value_writes };

    ghost respects_eq = { value_alike };

    fn hash<H: Hasher>(&self, state: &mut H) {
        match self {
            Value::Nil => state.write_u8(0),
            Value::Bool(truth) => state.write_u8(if *truth { 2 } else { 1 }),
            Value::Int(number) => state.write_i64(*number),
            Value::Str(text) => text.hash(state),
            Value::Table(number) => state.write_u64(*number),
            Value::Closure(number) => state.write_u64(*number),
            Value::Builtin(name) => state.write_u8(name.number()),
        }
    }
}

impl Default for Value {
    ghost is_default = { λ v. v ≡ Nil };

    fn default() -> Value {
        Value::Nil
    }
}
