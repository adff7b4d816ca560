ghost use Rattle.std.specs.Prelude.{◌≡◌, is_none, map, [], IfOk};
ghost use Rattle.type_reader.specs.Answers.{Answers};
ghost use Rattle.type_reader.specs.Declarations.{own_names as own_names_of};
ghost use Rattle.type_reader.specs.Faults.{first_of};
ghost use Rattle.type_reader.specs.Lent.{declared_in, declaration_of};
ghost use Rattle.type_reader.specs.Lookups.{names_in};
ghost use Rattle.type_reader.specs.Ranks.{IsFalling};
ghost use Rattle.type_reader.specs.Reading.{too_large, circle_fault, type_faults, results_faults, record_faults, declared_fault};
ghost use Rattle.type_reader.specs.SeenUses.{used_in};
ghost use Rattle.type_reader.specs.Types.{type_of as type_of_written, body_of as body_of_written};

use crate::building::{body_of, record_of, type_of};
use crate::checking::{check_fields, check_results, check_type, place_of, refused};
use crate::circles::is_circular;
use crate::declarations::{Declaration, Form};
use crate::graph::Graph;
use crate::lookups::{Found, Lookups};
use crate::typing::{Module, are_typed};
use crate::uses::Uses;
use lua_tree::{TypeExpr, TypeField, TypeResults};
use std::alloc::Global;
use tl_base::{Failure, Pos, RefusalCode};
use tl_types::Ty;

/// Where all names that are used have types and yet there is none, it is too large.
fn check_size<'a>(
    alloc: Global,
    names: Lookups<'_, 'a>,
    pos: Pos,
    uses: &Uses<'a>,
    ty: &Option<Ty>,
) -> Result<(), Failure>
    ensures { Answers (too_large (names_in names.entry) pos (used_in uses.now) ty.now) result }
{
    if ty.is_some() {
        return Ok(());
    }
    if are_typed(alloc, names, uses)? {
        return Err(refused(RefusalCode::Y1, pos));
    }
    Ok(())
}

/// The type that is written, or its first fault. The place is where one that is too large is told.
pub fn read_type<'a>(
    alloc: Global,
    names: Lookups<'_, 'a>,
    pos: Pos,
    e: &'a TypeExpr,
) -> Result<Option<Ty>, Failure>
    ensures answers { Answers (type_faults (names_in names.entry) pos e.now) result }
    ensures ty { IfOk result (λ t. t ≡ type_of_written (names_in names.entry) e.now) }
{
    check_type(alloc, names, e)?;
    let ty = type_of(alloc, names, e)?;
    let mut uses = Uses::new(alloc);
    uses.ty(e)?;
    check_size(alloc, names, pos, &uses, &ty)?;
    Ok(ty)
}

/// The function type that stands for the results of a body, or their first fault.
pub fn read_results<'a>(
    alloc: Global,
    names: Lookups<'_, 'a>,
    results: &'a TypeResults,
) -> Result<Option<Ty>, Failure>
    ensures answers { Answers (results_faults (names_in names.entry) results.now) result }
    ensures ty { IfOk result (λ t. t ≡ body_of_written (names_in names.entry) results.now) }
{
    check_results(alloc, names, results)?;
    let ty = body_of(alloc, names, results)?;
    let mut uses = Uses::new(alloc);
    uses.results(results)?;
    check_size(alloc, names, results.pos, &uses, &ty)?;
    Ok(ty)
}

/// The first fault of an interface.
fn check_interface<'a>(
    alloc: Global,
    names: Lookups<'_, 'a>,
    pos: Pos,
    fields: &'a [TypeField],
) -> Result<(), Failure>
    ensures { Answers (record_faults (names_in names.entry) pos fields.now) result }
{
    check_fields(alloc, names, fields)?;
    let ty = record_of(alloc, names, fields)?;
    let mut uses = Uses::new(alloc);
    uses.fields(fields)?;
    check_size(alloc, names, pos, &uses, &ty)
}

/// Whether a name of the module's own has no type.
fn is_untyped<'a>(names: Lookups<'_, 'a>, name: &'a [u8]) -> bool
    ensures { result ≡ is_none ((names_in names.entry).ty [] name.now) }
{
    match names.own(name) {
        Found::BuiltIn(_) | Found::Type(_) => false,
        Found::Untyped | Found::Unknown => true,
    }
}

/// Whether an alias leads to itself by aliases; then it has no type.
fn check_circle<'a>(
    alloc: Global,
    module: Module<'_, 'a>,
    names: Lookups<'_, 'a>,
    declaration: &Declaration<'a>,
    graph: &Graph,
) -> Result<(), Failure>
    requires own { «module».own.now ≡ own_names_of (declared_in «module».declared.now) }
    requires falling { IsFalling (declared_in «module».declared.now) graph.now.ranks.items }
    ensures { Answers (circle_fault (declared_in «module».entry.declared.now) (names_in names.entry) declaration.now.pos declaration.now.name.now.text) result }
{
    let name = declaration.name.text.as_slice();
    if !is_untyped(names, name) {
        return Ok(());
    }
    if is_circular(alloc, module, name, graph)? {
        return Err(refused(RefusalCode::Y5, declaration.pos));
    }
    Ok(())
}

/// The first fault of a declaration of its own.
fn check_declaration<'a>(
    alloc: Global,
    module: Module<'_, 'a>,
    names: Lookups<'_, 'a>,
    declaration: &Declaration<'a>,
    graph: &Graph,
) -> Result<(), Failure>
    requires own { «module».own.now ≡ own_names_of (declared_in «module».declared.now) }
    requires falling { IsFalling (declared_in «module».declared.now) graph.now.ranks.items }
    ensures { Answers (declared_fault (declared_in «module».entry.declared.now) (names_in names.entry) (declaration_of declaration.now)) result }
{
    match declaration.form {
        Form::Interface(_, fields) => check_interface(alloc, names, declaration.pos, fields),
        Form::Alias(e) => {
            check_circle(alloc, module, names, declaration, graph)?;
            read_type(alloc, names, declaration.pos, e)?;
            Ok(())
        }
    }
}

/// The first fault of the declarations, each one's own.
pub fn check_declarations<'a>(
    alloc: Global,
    module: Module<'_, 'a>,
    names: Lookups<'_, 'a>,
    graph: &Graph,
) -> Result<(), Failure>
    requires own { «module».own.now ≡ own_names_of (declared_in «module».declared.now) }
    requires falling { IsFalling (declared_in «module».declared.now) graph.now.ranks.items }
    ensures { Answers (first_of (map (declared_fault (declared_in «module».entry.declared.now) (names_in names.entry)) (declared_in «module».entry.declared.now))) result }
{
    for declaration in module.declared {
        check_declaration(alloc, module, names, declaration, graph)?;
    }
    Ok(())
}
