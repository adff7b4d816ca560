ghost use Rattle.std.specs.Prelude.{◌≡◌, ◌≢◌, ◌↔◌, length, IsTrue, IfSome, IsNone, IfOk};
ghost use Rattle.lua_tree.specs.Names.{number, spelling, text_of, dotted, place_of, AreRight, IsListed};
ghost use Rattle.lua_tree.specs.declared.names.LibName.{LibName};
ghost use Rattle.lua_tree.specs.Scopes.Library.{named};

use std::alloc::Global;
use tl_base::{Bytes, NoMemory};

/// A name of the library. Each is found in a program by the table and the key that it is named after, but for the last.
#[derive(Clone, Copy, Debug, PartialEq, Eq)]
pub enum LibName {
    Print,
    TypeOf,
    ToString,
    ToNumber,
    Pairs,
    Ipairs,
    Next,
    Select,
    RawGet,
    RawSet,
    RawEqual,
    RawLen,
    SetMetatable,
    GetMetatable,
    Pcall,
    Error,
    Assert,
    Require,
    StringLen,
    StringSub,
    StringUpper,
    StringLower,
    StringReverse,
    StringRep,
    StringByte,
    StringChar,
    StringFormat,
    TableInsert,
    TableRemove,
    TableConcat,
    TableUnpack,
    TableSort,
    MathAbs,
    MathFloor,
    MathMax,
    MathMin,
    MathUlt,
    MathType,
    MathMaxInteger,
    MathMinInteger,
    IoWrite,
    IoRead,
    /// the function that `ipairs` gives, which no program can spell
    IpairsStep,
}

impl LibName {
    /// The name's place among the names, from 0: two names with one number are the same.
    pub fn number(self) -> u8
        ensures { result ≡ number self }
    {
        self as u8
    }
}

// A name of the library, and where a program finds it: the library table, which is empty for a plain name, and the key.
#[derive(Clone, Copy)]
struct Entry(LibName, &'static [u8], &'static [u8]);

impl Entry {
    fn is_at(&self, table: &[u8], key: &[u8]) -> bool
        ensures { IsTrue result ↔ (place_of self.now ≡ (table.now, key.now)) }
    {
        let Entry(_, own_table, own_key) = *self;
        own_table == table && own_key == key
    }

    fn text(&self, alloc: Global) -> Result<Bytes, NoMemory>
        ensures { IfOk result (λ text. text ≡ dotted (place_of self.now)) }
    {
        let Entry(_, table, key) = *self;
        let mut text = Bytes::from_slice(alloc, table)?;
        if !table.is_empty() {
            text.push(b'.')?;
        }
        text.extend(key)?;
        Ok(text)
    }
}

// One entry for each name that a program can spell, in the order of the names.
static LIBRARY: [Entry; 42] = [
    Entry(LibName::Print, b"", b"print"),
    Entry(LibName::TypeOf, b"", b"type"),
    Entry(LibName::ToString, b"", b"tostring"),
    Entry(LibName::ToNumber, b"", b"tonumber"),
    Entry(LibName::Pairs, b"", b"pairs"),
    Entry(LibName::Ipairs, b"", b"ipairs"),
    Entry(LibName::Next, b"", b"next"),
    Entry(LibName::Select, b"", b"select"),
    Entry(LibName::RawGet, b"", b"rawget"),
    Entry(LibName::RawSet, b"", b"rawset"),
    Entry(LibName::RawEqual, b"", b"rawequal"),
    Entry(LibName::RawLen, b"", b"rawlen"),
    Entry(LibName::SetMetatable, b"", b"setmetatable"),
    Entry(LibName::GetMetatable, b"", b"getmetatable"),
    Entry(LibName::Pcall, b"", b"pcall"),
    Entry(LibName::Error, b"", b"error"),
    Entry(LibName::Assert, b"", b"assert"),
    Entry(LibName::Require, b"", b"require"),
    Entry(LibName::StringLen, b"string", b"len"),
    Entry(LibName::StringSub, b"string", b"sub"),
    Entry(LibName::StringUpper, b"string", b"upper"),
    Entry(LibName::StringLower, b"string", b"lower"),
    Entry(LibName::StringReverse, b"string", b"reverse"),
    Entry(LibName::StringRep, b"string", b"rep"),
    Entry(LibName::StringByte, b"string", b"byte"),
    Entry(LibName::StringChar, b"string", b"char"),
    Entry(LibName::StringFormat, b"string", b"format"),
    Entry(LibName::TableInsert, b"table", b"insert"),
    Entry(LibName::TableRemove, b"table", b"remove"),
    Entry(LibName::TableConcat, b"table", b"concat"),
    Entry(LibName::TableUnpack, b"table", b"unpack"),
    Entry(LibName::TableSort, b"table", b"sort"),
    Entry(LibName::MathAbs, b"math", b"abs"),
    Entry(LibName::MathFloor, b"math", b"floor"),
    Entry(LibName::MathMax, b"math", b"max"),
    Entry(LibName::MathMin, b"math", b"min"),
    Entry(LibName::MathUlt, b"math", b"ult"),
    Entry(LibName::MathType, b"math", b"type"),
    Entry(LibName::MathMaxInteger, b"math", b"maxinteger"),
    Entry(LibName::MathMinInteger, b"math", b"mininteger"),
    Entry(LibName::IoWrite, b"io", b"write"),
    Entry(LibName::IoRead, b"io", b"read"),
];

// The library's entries, each at its name's number.
fn library() -> &'static [Entry]
    ensures sound { AreRight result.now }
    ensures complete { (n : LibName) → IsListed result.now n }
    ensures len { length result.now ≡ 42 }
{
    &LIBRARY
}

/// The library's name `table.name`, or `name` itself where `table` is empty.
pub fn lib_named(table: &[u8], name: &[u8]) -> Option<LibName>
    ensures found { IfSome result (λ n. spelling n ≡ Some (table.now, name.now)) }
    ensures missing { IsNone result → (n : LibName) → spelling n ≢ Some (table.now, name.now) }
    ensures is { result ≡ named table.now name.now }
{
    let entries = library();
    for entry in entries {
        if entry.is_at(table, name) {
            return Some(entry.0);
        }
    }
    None
}

/// The name as messages write it.
pub fn lib_text(alloc: Global, name: LibName) -> Result<Bytes, NoMemory>
    ensures { IfOk result (λ text. text ≡ text_of name) }
{
    match library().get(name.number() as usize) {
        Some(entry) => entry.text(alloc),
        None => Bytes::from_slice(alloc, b"ipairs step"),
    }
}

#[cfg(test)]
mod tests {
    use super::*;
    use std::test::Fail;

    const NAMES: [(&str, &str); 5] = [
        (
            "",
            "print type tostring tonumber pairs ipairs next select rawget rawset rawequal rawlen setmetatable getmetatable pcall error assert require",
        ),
        ("string", "len sub upper lower reverse rep byte char format"),
        ("table", "insert remove concat unpack sort"),
        ("math", "abs floor max min ult type maxinteger mininteger"),
        ("io", "write read"),
    ];

    #[test]
    fn each_name_there_and_back(rt: HostRuntime) -> Result<(), Fail> {
        let mut count = 0;
        for (table, keys) in NAMES {
            for key in keys.split(' ') {
                let name = lib_named(table.as_bytes(), key.as_bytes()).ok_or("no name")?;
                assert_eq!(rt; name.number(), count);
                let text = lib_text(rt.alloc(), name)?;
                let want = if table.is_empty() {
                    format!(in rt.alloc(); "{key}")?
                } else {
                    format!(in rt.alloc(); "{table}.{key}")?
                };
                assert_eq!(rt; text.as_slice(), want.as_bytes());
                count += 1;
            }
        }
        assert_eq!(rt; count, LibName::IpairsStep.number());
        let step = lib_text(rt.alloc(), LibName::IpairsStep)?;
        assert_eq!(rt; step.as_slice(), b"ipairs step".as_slice());
        for (table, key) in [
            ("", "ipairs step"),
            ("", "len"),
            ("", "string.len"),
            ("string", "sort"),
            ("os", "time"),
            ("string", ""),
        ] {
            assert!(rt;
                lib_named(table.as_bytes(), key.as_bytes()).is_none(),
                "{table}.{key}"
            );
        }
        Ok(())
    }
}
