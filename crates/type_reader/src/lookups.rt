ghost use Rattle.std.specs.Prelude.{◌≡◌, [], option_map, IfOk};
ghost use Rattle.type_reader.specs.Names.{dotted, built_in, has_name, name_type};
ghost use Rattle.type_reader.specs.Lookups.{built_in_type, is_found, found_type};

use crate::other_names::OtherNames;
use crate::own_names::OwnNames;
use std::alloc::Global;
use tl_base::{Bytes, NoMemory};
use tl_types::Ty;

/// A type name that each module has without a declaration.
#[derive(Clone, Copy, Debug, PartialEq, Eq)]
pub enum BuiltIn {
    Boolean,
    Integer,
    String,
    Value,
    Any,
}

/// What a type name stands for.
#[derive(Clone, Copy)]
pub enum Found<'a> {
    BuiltIn(BuiltIn),
    Type(&'a Ty),
    /// it is declared, and has no type yet
    Untyped,
    Unknown,
}

/// The names of the other modules, and the module's own with the types that they have.
#[derive(Clone, Copy)]
pub struct Lookups<'n, 'a> {
    pub known: &'n OtherNames<'a>,
    pub own: &'n OwnNames<'a>,
    pub types: &'n [Option<Ty>],
}

/// The parts of a module's name with dots between them.
fn joined(alloc: Global, first: &Bytes, rest: &[Bytes]) -> Result<Bytes, NoMemory>
    ensures { IfOk result (λ b. b ≡ dotted first.now rest.now) }
{
    let mut text = Bytes::from_slice(alloc, first.as_slice())?;
    for part in rest {
        text.push(b'.')?;
        text.extend(part.as_slice())?;
    }
    Ok(text)
}

/// The built-in type of a name.
pub fn built_in_named(name: &[u8]) -> Option<BuiltIn>
    ensures { option_map built_in_type result ≡ built_in name.now }
{
    if name == b"boolean".as_slice() {
        Some(BuiltIn::Boolean)
    } else if name == b"integer".as_slice() {
        Some(BuiltIn::Integer)
    } else if name == b"string".as_slice() {
        Some(BuiltIn::String)
    } else if name == b"value".as_slice() {
        Some(BuiltIn::Value)
    } else if name == b"any".as_slice() {
        Some(BuiltIn::Any)
    } else {
        None
    }
}

impl<'n, 'a> Lookups<'n, 'a> {
    /// A name of the module's own, or a built-in one.
    pub fn own(self, name: &'a [u8]) -> Found<'n>
        ensures has { is_found result ≡ has_name self.entry.known.now self.entry.own.now [] name.now }
        ensures ty { found_type result ≡ name_type self.entry.known.now self.entry.own.now self.entry.types.now [] name.now }
    {
        if let Some(built_in) = built_in_named(name) {
            return Found::BuiltIn(built_in);
        }
        match self.own.find(name) {
            Some(at) => match self.types.get(at) {
                Some(Some(ty)) => Found::Type(ty),
                _ => Found::Untyped,
            },
            None => Found::Unknown,
        }
    }

    /// What a name stands for, behind the parts of its module's name.
    pub fn find(self, alloc: Global, parts: &[Bytes], name: &'a [u8]) -> Result<Found<'n>, NoMemory>
        ensures has { IfOk result (λ f. is_found f ≡ has_name self.entry.known.now self.entry.own.now parts.now name.now) }
        ensures ty { IfOk result (λ f. found_type f ≡ name_type self.entry.known.now self.entry.own.now self.entry.types.now parts.now name.now) }
    {
        let [first, rest @ ..] = parts else {
            return Ok(self.own(name));
        };
        let module = joined(alloc, first, rest)?;
        match self.known.find(module.as_slice(), name) {
            Some(ty) => Ok(Found::Type(ty)),
            None => Ok(Found::Unknown),
        }
    }
}
