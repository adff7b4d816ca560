ghost use Rattle.std.specs.Prelude.{◌≡◌, ◌∷◌, ◌++◌, [], map, OnOk, option_map};
ghost use Rattle.type_reader.specs.Types.{all, optional, uses_of, uses_of_field, uses_of_results, uses_of_tuple};
ghost use Rattle.type_reader.specs.SeenUses.{used_of, used_in};

use lua_tree::{TypeExpr, TypeField, TypeResults, TypeTuple};
use std::alloc::Global;
use tl_base::{Bytes, NoMemory};

/// A use of a type name, lent from the tree.
#[derive(Clone, Copy)]
pub struct Used<'a> {
    pub parts: &'a [Bytes],
    pub name: &'a [u8],
}

/// Uses of type names in order of place.
#[derive(Drop)]
pub struct Uses<'a> {
    items: Vec<Used<'a>>,
}

impl<'a> Uses<'a> {
    /// No use yet. It takes no memory.
    pub fn new(alloc: Global) -> Uses<'a>
        ensures { used_in result ≡ [] }
    {
        Uses {
            items: Vec::new(alloc),
        }
    }

    /// All of them, lent.
    pub fn as_slice(&self) -> &[Used<'a>]
        ensures { map used_of result.now ≡ used_in self.now }
    {
        self.items.as_slice()
    }

    fn push(&mut self, used: Used<'a>) -> Result<(), NoMemory>
        ensures { OnOk result (used_in self.new ≡ used_in self.old ++ used_of used.entry ∷ []) }
    {
        self.items.push(used)?;
        Ok(())
    }

    /// The names that are used in a type.
    #[cycle(uses)]
    pub fn ty(&mut self, e: &'a TypeExpr) -> Result<(), NoMemory>
        ensures { OnOk result (used_in self.new ≡ used_in self.old ++ uses_of e.now) }
    {
        match e {
            TypeExpr::Nil(_) | TypeExpr::Bool(_, _) | TypeExpr::Int(_, _) | TypeExpr::Str(_, _) => {
                Ok(())
            }
            TypeExpr::Named(_, parts, name) => self.push(Used {
                parts: parts.as_slice(),
                name: name.as_slice(),
            }),
            TypeExpr::Paren(_, inner) | TypeExpr::Array(_, inner) | TypeExpr::Optional(_, inner) =>
                { self.ty(inner.get()) }
            TypeExpr::Map(_, key, value) => {
                self.ty(key.get())?;
                self.ty(value.get())
            }
            TypeExpr::Record(_, fields) => self.fields(fields.as_slice()),
            TypeExpr::Function(_, params, results) => {
                self.tuple(params)?;
                self.results(results)
            }
            TypeExpr::Union(_, members) => self.types(members.as_slice()),
        }
    }

    #[cycle(uses)]
    fn types(&mut self, types: &'a [TypeExpr]) -> Result<(), NoMemory>
        ensures { OnOk result (used_in self.new ≡ used_in self.old ++ all (map uses_of types.now)) }
    {
        for e in types {
            self.ty(e)?;
        }
        Ok(())
    }

    /// Those in the types of fields.
    #[cycle(uses)]
    pub fn fields(&mut self, fields: &'a [TypeField]) -> Result<(), NoMemory>
        ensures { OnOk result (used_in self.new ≡ used_in self.old ++ all (map uses_of_field fields.now)) }
    {
        for field in fields {
            self.ty(&field.ty)?;
        }
        Ok(())
    }

    #[cycle(uses)]
    fn tuple(&mut self, tuple: &'a TypeTuple) -> Result<(), NoMemory>
        ensures { OnOk result (used_in self.new ≡ used_in self.old ++ uses_of_tuple tuple.now) }
    {
        self.types(tuple.items.as_slice())?;
        match &tuple.tail {
            Some(tail) => self.ty(tail.get()),
            None => Ok(()),
        }
    }

    /// Those in results.
    #[cycle(uses)]
    pub fn results(&mut self, results: &'a TypeResults) -> Result<(), NoMemory>
        ensures { OnOk result (used_in self.new ≡ used_in self.old ++ uses_of_results results.now) }
    {
        for tuple in results.tuples.as_slice() {
            self.tuple(tuple)?;
        }
        Ok(())
    }
}
