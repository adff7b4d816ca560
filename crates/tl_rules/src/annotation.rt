ghost use Rattle.std.specs.Prelude.{◌≡◌, IfOk};
ghost use Rattle.tl_rules.specs.Annotations as annotations;
ghost use Rattle.tl_rules.specs.Places as places;

use crate::{NoMemory, Pos, Ty, TypeExpr};
use std::alloc::Global;
use tl_types::boolean;

/// The type that is written, if there is a rule for it: so far `nil` and five names.
pub fn type_written(alloc: Global, written: &TypeExpr) -> Result<Option<Ty>, NoMemory>
    ensures { IfOk result (λ t. t ≡ annotations.type_written written.now) }
{
    match written {
        TypeExpr::Nil(_) => Ok(Some(Ty::Nil)),
        TypeExpr::Named(_, module, name) => {
            if module.is_empty() {
                type_named(alloc, name.as_slice())
            } else {
                Ok(None)
            }
        }
        _ => Ok(None),
    }
}

// The type that a name stands for.
fn type_named(alloc: Global, name: &[u8]) -> Result<Option<Ty>, NoMemory>
    ensures { IfOk result (λ t. t ≡ annotations.type_named name.now) }
{
    if name == b"boolean".as_slice() {
        return Ok(Some(boolean(alloc)?));
    }
    if name == b"integer".as_slice() {
        return Ok(Some(Ty::Int));
    }
    if name == b"string".as_slice() {
        return Ok(Some(Ty::Str));
    }
    if name == b"value".as_slice() {
        return Ok(Some(Ty::Value));
    }
    if name == b"any".as_slice() {
        return Ok(Some(Ty::Any));
    }
    Ok(None)
}

/// The place of a type's first token.
pub fn type_place(written: &TypeExpr) -> Pos
    ensures { result ≡ places.type_place written.now }
{
    match written {
        TypeExpr::Nil(pos)
        | TypeExpr::Bool(pos, _)
        | TypeExpr::Int(pos, _)
        | TypeExpr::Str(pos, _)
        | TypeExpr::Named(pos, ..)
        | TypeExpr::Paren(pos, _)
        | TypeExpr::Array(pos, _)
        | TypeExpr::Map(pos, ..)
        | TypeExpr::Record(pos, _)
        | TypeExpr::Optional(pos, _)
        | TypeExpr::Function(pos, ..)
        | TypeExpr::Union(pos, _) => *pos,
    }
}
