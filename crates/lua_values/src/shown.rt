ghost use Rattle.std.specs.Prelude.{◌≡◌, ◌++◌, codes, IfOk};
ghost use Rattle.std.specs.Fmt.{decimal, signed_decimal};
ghost use Rattle.lua_tree.specs.Names.{text_of};
ghost use Rattle.lua_values.specs.Shown.{shown_text};

use crate::{Text, Value};
use lua_tree::{LibName, lib_text};
use std::alloc::Global;
use tl_base::{Bytes, NoMemory};

/// The decimal text of an integer.
pub fn integer_text(alloc: Global, number: i64) -> Result<Text, NoMemory>
    ensures { IfOk result (λ text. text ≡ signed_decimal number) }
{
    let digits = number.to_string(alloc)?;
    Text::new(alloc, digits.as_bytes())
}

fn numbered_text(alloc: Global, kind: &str, number: u64) -> Result<Text, NoMemory>
    ensures { IfOk result (λ text. text ≡ kind.now ++ codes ": " ++ decimal number) }
{
    let text = format!(in alloc; "{kind}: {number}")?;
    Text::new(alloc, text.as_bytes())
}

fn builtin_text(alloc: Global, name: LibName) -> Result<Text, NoMemory>
    ensures { IfOk result (λ text. text ≡ codes "builtin: " ++ text_of name) }
{
    let name = lib_text(alloc, name)?;
    let mut text = Bytes::from_slice(alloc, b"builtin: ")?;
    text.extend(name.as_slice())?;
    Text::new(alloc, text.as_slice())
}

/// The text that `tostring` gives of a value without metamethods. That of a string is the string itself, whose bytes it shares.
pub fn raw_text(alloc: Global, value: &Value) -> Result<Text, NoMemory>
    ensures { IfOk result (λ text. text ≡ shown_text value.now) }
{
    match value {
        Value::Nil => Text::new(alloc, b"nil"),
        Value::Bool(true) => Text::new(alloc, b"true"),
        Value::Bool(false) => Text::new(alloc, b"false"),
        Value::Int(number) => integer_text(alloc, *number),
        Value::Str(text) => text.share(),
        Value::Table(number) => numbered_text(alloc, "table", *number),
        Value::Closure(number) => numbered_text(alloc, "function", *number),
        Value::Builtin(name) => builtin_text(alloc, *name),
    }
}
