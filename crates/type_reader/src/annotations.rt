ghost use Rattle.std.specs.Prelude.{◌≡◌, ◌∷◌, ◌++◌, [], map, OnOk};
ghost use Rattle.type_reader.specs.Seen.{annotation_of, collected};

use lua_tree::{Name, TypeExpr, TypeField, TypeResults};
use std::alloc::Global;
use tl_base::{NoMemory, Pos};

/// A place where a module's text speaks of types, lent from the tree.
#[derive(Clone, Copy)]
pub enum Annotation<'a> {
    /// The type behind a name or behind `...`.
    Type(&'a TypeExpr),
    /// The results of a body.
    Results(&'a TypeResults),
    /// An interface statement: its place, its name and its fields.
    Interface(Pos, &'a Name, &'a [TypeField]),
    /// An alias statement: its place, its name and its type.
    Alias(Pos, &'a Name, &'a TypeExpr),
}

/// Annotations in order of place.
#[derive(Drop)]
pub struct Annotations<'a> {
    items: Vec<Annotation<'a>>,
}

impl<'a> Annotations<'a> {
    /// No annotation yet. It takes no memory.
    pub fn new(alloc: Global) -> Annotations<'a>
        ensures { collected result ≡ [] }
    {
        Annotations {
            items: Vec::new(alloc),
        }
    }

    /// One annotation more.
    pub fn push(&mut self, annotation: Annotation<'a>) -> Result<(), NoMemory>
        ensures { OnOk result (collected self.new ≡ collected self.old ++ annotation_of annotation.entry ∷ []) }
    {
        self.items.push(annotation)?;
        Ok(())
    }

    /// All of them, lent.
    pub fn as_slice(&self) -> &[Annotation<'a>]
        ensures { map annotation_of result.now ≡ collected self.now }
    {
        self.items.as_slice()
    }
}
