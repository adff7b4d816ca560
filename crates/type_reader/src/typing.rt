ghost use Rattle.std.specs.Prelude.{◌≡◌, ℕ, length, map, IfOk, OnOk};
ghost use Rattle.type_reader.specs.Types.{are_typed as are_typed_in};
ghost use Rattle.type_reader.specs.Declarations.{alias_type as alias_type_in, first_type, types_to, form_type as form_type_in, own_names as own_names_of};
ghost use Rattle.type_reader.specs.Lookups.{names_in};
ghost use Rattle.type_reader.specs.SeenUses.{used_in};
ghost use Rattle.type_reader.specs.Lent.{declared_in, form_of};
ghost use Rattle.type_reader.specs.Growing.{Grows, Settles, Swept};

use crate::building::type_of;
use crate::declarations::{Declaration, Form};
use crate::lookups::{Found, Lookups};
use crate::other_names::OtherNames;
use crate::own_names::OwnNames;
use crate::uses::Uses;
use lua_tree::TypeExpr;
use std::alloc::Global;
use tl_base::NoMemory;
use tl_types::Ty;

/// What stays the same while the types of the module's own names are found.
#[derive(Clone, Copy)]
pub struct Module<'m, 'a> {
    pub known: &'m OtherNames<'a>,
    pub own: &'m OwnNames<'a>,
    pub declared: &'m [Declaration<'a>],
}

/// Whether each name that is used has a type.
pub fn are_typed<'a>(
    alloc: Global,
    names: Lookups<'_, 'a>,
    uses: &Uses<'a>,
) -> Result<bool, NoMemory>
    ensures { IfOk result (λ b. b ≡ are_typed_in (names_in names.entry) (used_in uses.now)) }
{
    for used in uses.as_slice() {
        match names.find(alloc, used.parts, used.name)? {
            Found::BuiltIn(_) | Found::Type(_) => {}
            Found::Untyped | Found::Unknown => return Ok(false),
        }
    }
    Ok(true)
}

/// The type of an alias, where each name in it has a type.
pub fn alias_type<'a>(
    alloc: Global,
    names: Lookups<'_, 'a>,
    e: &'a TypeExpr,
) -> Result<Option<Ty>, NoMemory>
    ensures { IfOk result (λ r. r ≡ alias_type_in (names_in names.entry) e.now) }
{
    let mut uses = Uses::new(alloc);
    uses.ty(e)?;
    if are_typed(alloc, names, &uses)? {
        type_of(alloc, names, e)
    } else {
        Ok(None)
    }
}

/// The types before any alias has one.
fn first_types(alloc: Global, declared: &[Declaration<'_>]) -> Result<Vec<Option<Ty>>, NoMemory>
    ensures { IfOk result (λ ts. ts.items ≡ map (λ d. first_type d.form) (declared_in declared.now)) }
{
    let mut types = Vec::new(alloc);
    for declaration in declared {
        match declaration.form {
            Form::Interface(number, _) => types.push(Some(Ty::Iface(number)))?,
            Form::Alias(_) => types.push(None)?,
        }
    }
    Ok(types)
}

/// What a declaration stands for, where names have the types that were found.
fn form_type<'a>(
    alloc: Global,
    names: Lookups<'_, 'a>,
    form: Form<'a>,
) -> Result<Option<Ty>, NoMemory>
    ensures { IfOk result (λ r. r ≡ form_type_in (names_in names.entry) (form_of form.entry)) }
{
    match form {
        Form::Interface(number, _) => Ok(Some(Ty::Iface(number))),
        Form::Alias(e) => alias_type(alloc, names, e),
    }
}

/// Finds the type of one name, where it has none and it can be found. It says whether it was.
fn settle<'a>(
    alloc: Global,
    module: Module<'_, 'a>,
    types: &mut Vec<Option<Ty>>,
    at: usize,
) -> Result<bool, NoMemory>
    requires own { «module».own.now ≡ own_names_of (declared_in «module».declared.now) }
    requires length { length types.old.items ≡ length «module».declared.now }
    ensures { IfOk result (λ b. Settles «module».entry.known.now (declared_in «module».entry.declared.now) types.old.items types.new.items at b) }
{
    let Some(declaration) = module.declared.get(at) else {
        return Ok(false);
    };
    if types[at].is_some() {
        return Ok(false);
    }
    let names = Lookups {
        known: module.known,
        own: module.own,
        types: types.as_slice(),
    };
    match form_type(alloc, names, declaration.form)? {
        Some(ty) => {
            types[at] = Some(ty);
            Ok(true)
        }
        None => Ok(false),
    }
}

/// Finds the types of names in this order, as far as they can be found.
fn settle_in_order<'a>(
    alloc: Global,
    module: Module<'_, 'a>,
    types: &mut Vec<Option<Ty>>,
    order: &[usize],
) -> Result<(), NoMemory>
    requires own { «module».own.now ≡ own_names_of (declared_in «module».declared.now) }
    requires length { length types.old.items ≡ length «module».declared.now }
    ensures { OnOk result ((n : ℕ) × Grows «module».entry.known.now (declared_in «module».entry.declared.now) n types.old.items types.new.items) }
{
    for at in order {
        settle(alloc, module, types, *at)?;
    }
    Ok(())
}

/// Finds the types of all names that can be found from those that have one, and says whether there was one.
fn sweep<'a>(
    alloc: Global,
    module: Module<'_, 'a>,
    types: &mut Vec<Option<Ty>>,
) -> Result<bool, NoMemory>
    requires own { «module».own.now ≡ own_names_of (declared_in «module».declared.now) }
    requires length { length types.old.items ≡ length «module».declared.now }
    ensures { IfOk result (λ b. Swept «module».entry.known.now (declared_in «module».entry.declared.now) types.old.items types.new.items (length «module».entry.declared.now) b) }
{
    let mut changed = false;
    for at in 0..module.declared.len() {
        if settle(alloc, module, types, at)? {
            changed = true;
        }
    }
    Ok(changed)
}

/// The types of the module's own names: an alias has the type that is written, where each name in it has one. The order tells in which they are
/// looked at first; where each alias stands behind those that it uses, they are found in one go.
pub fn find_types<'a>(
    alloc: Global,
    module: Module<'_, 'a>,
    order: &[usize],
) -> Result<Vec<Option<Ty>>, NoMemory>
    requires own { «module».own.now ≡ own_names_of (declared_in «module».declared.now) }
    ensures { IfOk result (λ ts. ts.items ≡ types_to «module».entry.known.now (declared_in «module».entry.declared.now) (length (declared_in «module».entry.declared.now))) }
{
    let mut types = first_types(alloc, module.declared)?;
    settle_in_order(alloc, module, &mut types, order)?;
    while sweep(alloc, module, &mut types)? {}
    Ok(types)
}
