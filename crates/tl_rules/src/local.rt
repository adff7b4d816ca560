ghost use Rattle.std.specs.Prelude.{◌≡◌, true, false, IfOk, OnOk, Err};
ghost use Rattle.tl_types.specs.declared.types.TyError.TheVariants as ty_error;
ghost use Rattle.tl_types.specs.Sizes.{is_within};
ghost use Rattle.tl_types.specs.Unions.{general_form};
ghost use Rattle.tl_rules.specs.Locals.{any_for_nothing, general_declared, local_with};

use crate::{Ty, TyError};
use std::alloc::Global;
use tl_types::general;

/// What typing knows of a local: the type that it was declared with, and the type of the value that it holds now.
#[derive(Debug, Drop)]
pub struct Local {
    pub declared: Ty,
    pub current: Ty,
}

impl Local {
    /// A local of this declared type, into which a value of the type `known` was put. One that is declared `any` keeps the type `any`.
    pub fn holding(declared: Ty, known: Ty) -> Local
        ensures { result ≡ local_with declared known }
    {
        match declared {
            Ty::Any => Local {
                declared: Ty::Any,
                current: Ty::Any,
            },
            declared => Local {
                declared,
                current: known,
            },
        }
    }
}

/// The declared type of a local without annotation whose initialiser has this type.
pub fn declared_for(alloc: Global, initialiser: &Ty) -> Result<Ty, TyError>
    ensures value { IfOk result (λ t. t ≡ general_declared initialiser.now) }
    ensures within { OnOk result (is_within (general_form initialiser.now) ≡ true) }
    ensures large { result ≡ Err ty_error.TooLarge → is_within (general_form initialiser.now) ≡ false }
{
    let form = general(alloc, initialiser)?;
    Ok(saying(form))
}

// The type itself, and `any` for `nil` and `never`, which say nothing of the values to come.
fn saying(form: Ty) -> Ty
    ensures { result ≡ any_for_nothing form }
{
    match form {
        Ty::Nil => Ty::Any,
        Ty::Union(members) => {
            if members.is_empty() {
                Ty::Any
            } else {
                Ty::Union(members)
            }
        }
        form => form,
    }
}
