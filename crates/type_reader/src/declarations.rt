ghost use Rattle.std.specs.Prelude.{◌≡◌, map, IfOk};
ghost use Rattle.type_reader.specs.Answers.{Answers};
ghost use Rattle.type_reader.specs.Seen.{annotation_of};
ghost use Rattle.type_reader.specs.Declarations.{declarations, own_names as own_names_of, repeated_name};
ghost use Rattle.type_reader.specs.Lent.{declared_in};

use crate::annotations::Annotation;
use crate::checking::refused;
use crate::lookups::built_in_named;
use crate::own_names::OwnNames;
use lua_tree::{Name, TypeExpr, TypeField};
use std::alloc::Global;
use tl_base::{Failure, NoMemory, Pos, RefusalCode};

/// What a type name is declared as.
#[derive(Clone, Copy)]
pub enum Form<'a> {
    /// An interface, by its number, and its fields.
    Interface(u32, &'a [TypeField]),
    Alias(&'a TypeExpr),
}

/// A declaration of a type name, lent from the tree.
#[derive(Clone, Copy)]
pub struct Declaration<'a> {
    /// the place of the statement
    pub pos: Pos,
    pub name: &'a Name,
    pub form: Form<'a>,
}

/// The declarations among annotations, with the interfaces numbered from this number on.
pub fn declare<'a>(
    alloc: Global,
    first: usize,
    annotations: &[Annotation<'a>],
) -> Result<Vec<Declaration<'a>>, NoMemory>
    ensures { IfOk result (λ ds. declared_in ds.items ≡ declarations first (map annotation_of annotations.now)) }
{
    let Ok(mut next) = u32::try_from(first) else {
        return Err(NoMemory);
    };
    let mut declared = Vec::new(alloc);
    for annotation in annotations {
        match *annotation {
            Annotation::Interface(pos, name, fields) => {
                declared.push(Declaration {
                    pos,
                    name,
                    form: Form::Interface(next, fields),
                })?;
                if next == u32::MAX {
                    return Err(NoMemory);
                }
                next += 1;
            }
            Annotation::Alias(pos, name, ty) => declared.push(Declaration {
                pos,
                name,
                form: Form::Alias(ty),
            })?,
            Annotation::Type(_) | Annotation::Results(_) => {}
        }
    }
    Ok(declared)
}

/// The names that are declared. It is refused with Y3 at the first one that is built in or declared before.
pub fn own_names<'a>(alloc: Global, declared: &[Declaration<'a>]) -> Result<OwnNames<'a>, Failure>
    ensures names { IfOk result (λ o. o ≡ own_names_of (declared_in declared.now)) }
    ensures answers { Answers (repeated_name (declared_in declared.now)) result }
{
    let mut own = OwnNames::new(alloc);
    for declaration in declared {
        let name = declaration.name;
        if built_in_named(name.text.as_slice()).is_some() {
            return Err(refused(RefusalCode::Y3, name.pos));
        }
        if !own.add(name.text.as_slice())? {
            return Err(refused(RefusalCode::Y3, name.pos));
        }
    }
    Ok(own)
}
