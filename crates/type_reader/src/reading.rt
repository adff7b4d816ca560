ghost use Rattle.std.specs.Prelude.{◌≡◌, [], map, Some, IfOk, OnOk, OnErr};
ghost use Rattle.type_reader.specs.Answers.{Answers};
ghost use Rattle.type_reader.specs.Declarations.{own_names as own_names_of};
ghost use Rattle.type_reader.specs.Faults.{first_of};
ghost use Rattle.type_reader.specs.Lent.{declared_in, declaration_of, form_of};
ghost use Rattle.type_reader.specs.Outcomes.{IsRead, IsReadModule, IsReadOf};
ghost use Rattle.type_reader.specs.Lookups.{built_in_type, names_in};
ghost use Rattle.type_reader.specs.Ranks.{IsFalling};
ghost use Rattle.type_reader.specs.Reading.{type_faults, place_of as place_in_tree, used_fault, annotation_type, entry_of, bodies_of, bodies_of_form, fault_in, types_in, IsJoined};
ghost use Rattle.type_reader.specs.Seen.{annotation_of};
ghost use Rattle.type_reader.specs.Types.{every, type_of as type_of_written};

use crate::annotations::{Annotation, Annotations};
use crate::building::fields_of;
use crate::checking::place_of;
use crate::declarations::{Declaration, Form, declare, own_names};
use crate::faults::{check_declarations, read_results, read_type};
use crate::graph::{Graph, graph_of};
use crate::joining::{append, join};
use crate::lookups::{BuiltIn, Found, Lookups};
use crate::names::{TypeName, TypeNames};
use crate::other_names::OtherNames;
use crate::ranks::looked_at;
use crate::typing::{Module, find_types};
use lua_tree::{Scoped, TypeExpr};
use std::alloc::Global;
use tl_base::{Bytes, Failure, List, NoMemory};
use tl_types::{Field, Ty, boolean};

/// The types of a module's annotations in order of place. The results of a body stand as the function with these results and no listed parameter, which takes
/// every value; an interface statement stands as its interface, and an alias as its type.
#[derive(Drop)]
pub struct TypedChunk {
    pub types: List<Ty>,
}

/// What is read of a module: the types of its annotations, and the names and the records of interfaces that it adds.
#[derive(Drop)]
struct Read {
    types: List<Ty>,
    names: Vec<TypeName>,
    bodies: List<List<Field>>,
}

fn built_in(alloc: Global, built_in: BuiltIn) -> Result<Ty, NoMemory>
    ensures { IfOk result (λ t. t ≡ built_in_type built_in) }
{
    match built_in {
        BuiltIn::Boolean => boolean(alloc),
        BuiltIn::Integer => Ok(Ty::Int),
        BuiltIn::String => Ok(Ty::Str),
        BuiltIn::Value => Ok(Ty::Value),
        BuiltIn::Any => Ok(Ty::Any),
    }
}

/// The type of a name of the module's own.
fn own_type<'a>(
    alloc: Global,
    names: Lookups<'_, 'a>,
    name: &'a [u8],
) -> Result<Option<Ty>, NoMemory>
    ensures { IfOk result (λ t. t ≡ (names_in names.entry).ty [] name.now) }
{
    match names.own(name) {
        Found::BuiltIn(found) => Ok(Some(built_in(alloc, found)?)),
        Found::Type(ty) => Ok(Some(ty.copy(alloc)?)),
        Found::Untyped | Found::Unknown => Ok(None),
    }
}

/// The type that is written, or its first fault.
fn read_written<'a>(
    alloc: Global,
    names: Lookups<'_, 'a>,
    e: &'a TypeExpr,
) -> Result<Option<Ty>, Failure>
    ensures answers { Answers (type_faults (names_in names.entry) (place_in_tree (names_in names.entry) e.now) e.now) result }
    ensures ty { IfOk result (λ t. t ≡ type_of_written (names_in names.entry) e.now) }
{
    read_type(alloc, names, place_of(e), e)
}

/// What stands for an annotation, or its first fault; declarations have theirs before.
fn read_annotation<'a>(
    alloc: Global,
    names: Lookups<'_, 'a>,
    annotation: Annotation<'a>,
) -> Result<Option<Ty>, Failure>
    ensures answers { Answers (used_fault (names_in names.entry) (annotation_of annotation.entry)) result }
    ensures ty { IfOk result (λ t. t ≡ annotation_type (names_in names.entry) (annotation_of annotation.entry)) }
{
    match annotation {
        Annotation::Type(e) => read_written(alloc, names, e),
        Annotation::Results(results) => read_results(alloc, names, results),
        Annotation::Interface(_, name, _) | Annotation::Alias(_, name, _) => {
            Ok(own_type(alloc, names, name.text.as_slice())?)
        }
    }
}

/// What stands for the annotations, or the first fault of those that declare nothing.
fn read_annotations<'a>(
    alloc: Global,
    names: Lookups<'_, 'a>,
    annotations: &[Annotation<'a>],
) -> Result<List<Ty>, Failure>
    ensures answers { Answers (first_of (map (used_fault (names_in names.entry)) (map annotation_of annotations.now))) result }
    ensures types { IfOk result (λ ts. every (map (annotation_type (names_in names.entry)) (map annotation_of annotations.now)) ≡ Some ts) }
{
    let mut types = List::new(alloc);
    for annotation in annotations {
        match read_annotation(alloc, names, *annotation)? {
            Some(ty) => types.push(ty)?,
            None => return Err(Failure::NoMemory),
        }
    }
    Ok(types)
}

/// A name that the module of this name adds.
fn added_name<'a>(
    alloc: Global,
    of: &[u8],
    names: Lookups<'_, 'a>,
    declaration: Declaration<'a>,
) -> Result<Option<TypeName>, NoMemory>
    ensures { IfOk result (λ n. n ≡ entry_of of.now (names_in names.entry) (declaration_of declaration.entry)) }
{
    let name = declaration.name.text.as_slice();
    match own_type(alloc, names, name)? {
        Some(ty) => Ok(Some(TypeName {
            module: Bytes::from_slice(alloc, of)?,
            name: Bytes::from_slice(alloc, name)?,
            ty,
        })),
        None => Ok(None),
    }
}

/// The names that the module of this name adds.
fn added_names<'a>(
    alloc: Global,
    of: &[u8],
    names: Lookups<'_, 'a>,
    declared: &[Declaration<'a>],
) -> Result<Vec<TypeName>, NoMemory>
    ensures { IfOk result (λ v. every (map (entry_of of.now (names_in names.entry)) (declared_in declared.now)) ≡ Some v.items) }
{
    let mut added = Vec::new(alloc);
    for declaration in declared {
        match added_name(alloc, of, names, *declaration)? {
            Some(name) => added.push(name)?,
            None => return Err(NoMemory),
        }
    }
    Ok(added)
}

/// The record of an interface, and none of an alias.
fn body_of_form<'a>(
    alloc: Global,
    names: Lookups<'_, 'a>,
    form: Form<'a>,
) -> Result<Vec<List<Field>>, NoMemory>
    ensures { IfOk result (λ v. every (bodies_of_form (names_in names.entry) (form_of form.entry)) ≡ Some v.items) }
{
    let mut body = Vec::new(alloc);
    match form {
        Form::Interface(_, fields) => match fields_of(alloc, names, fields)? {
            Some(fields) => {
                body.push(fields)?;
                Ok(body)
            }
            None => Err(NoMemory),
        },
        Form::Alias(_) => Ok(body),
    }
}

/// The records of the interfaces that are added.
fn added_bodies<'a>(
    alloc: Global,
    names: Lookups<'_, 'a>,
    declared: &[Declaration<'a>],
) -> Result<List<List<Field>>, NoMemory>
    ensures { IfOk result (λ v. every (bodies_of (names_in names.entry) (declared_in declared.now)) ≡ Some v) }
{
    let mut added = List::new(alloc);
    for declaration in declared {
        let body = body_of_form(alloc, names, declaration.form)?;
        append(alloc, &mut added, body)?;
    }
    Ok(added)
}

/// What is read, where names have these types.
fn read_named<'a>(
    alloc: Global,
    of: &[u8],
    module: Module<'_, 'a>,
    names: Lookups<'_, 'a>,
    graph: &Graph,
    annotations: &[Annotation<'a>],
) -> Result<Read, Failure>
    requires own { «module».own.now ≡ own_names_of (declared_in «module».declared.now) }
    requires falling { IsFalling (declared_in «module».declared.now) graph.now.ranks.items }
    ensures { IsReadOf of.now (names_in names.entry) (declared_in «module».entry.declared.now) (map annotation_of annotations.now) result }
{
    check_declarations(alloc, module, names, graph)?;
    let types = read_annotations(alloc, names, annotations)?;
    let added = added_names(alloc, of, names, module.declared)?;
    let bodies = added_bodies(alloc, names, module.declared)?;
    Ok(Read {
        types,
        names: added,
        bodies,
    })
}

/// What is read of a module whose names are declared.
fn read_declared<'a>(
    alloc: Global,
    of: &[u8],
    module: Module<'_, 'a>,
    annotations: &[Annotation<'a>],
) -> Result<Read, Failure>
    requires { «module».own.now ≡ own_names_of (declared_in «module».declared.now) }
    ensures { IsRead of.now «module».entry.known.now (declared_in «module».entry.declared.now) (map annotation_of annotations.now) result }
{
    let graph = graph_of(alloc, module.own, module.declared)?;
    let types = find_types(alloc, module, &graph.order)?;
    let graph = looked_at(alloc, module, graph)?;
    let names = Lookups {
        known: module.known,
        own: module.own,
        types: types.as_slice(),
    };
    read_named(alloc, of, module, names, &graph, annotations)
}

/// What is read of a module.
fn read_module<'a>(
    alloc: Global,
    of: &[u8],
    scoped: &'a Scoped,
    known: &'a TypeNames,
) -> Result<Read, Failure>
    ensures { IsReadModule of.now known.now scoped.now result }
{
    let mut annotations = Annotations::new(alloc);
    annotations.block(&scoped.chunk.body)?;
    let declared = declare(alloc, known.interfaces.bodies.len(), annotations.as_slice())?;
    let own = own_names(alloc, &declared)?;
    let others = OtherNames::new(alloc, known.names.as_slice())?;
    let module = Module {
        known: &others,
        own: &own,
        declared: &declared,
    };
    read_declared(alloc, of, module, annotations.as_slice())
}

/// The types of a module's annotations in order of place, where the module has this name. Its type names are known in all of it, whatever the order, and join
/// those that are known. It is refused with the first of Y1 to Y5: repeated names come first, then declarations in order of place, then other annotations in
/// order of place. After a refusal, and without memory, the names that are known stay as they were.
pub fn read_types(
    alloc: Global,
    name: &[u8],
    scoped: &Scoped,
    known: &mut TypeNames,
) -> Result<TypedChunk, Failure>
    ensures answers { Answers (fault_in known.old scoped.now) result }
    ensures types { IfOk result (λ t. types_in known.old scoped.now ≡ Some t.types) }
    ensures joined { OnOk result (IsJoined name.now known.old scoped.now known.new) }
    ensures kept { OnErr result (known.new ≡ known.old) }
{
    let Read {
        types,
        names,
        bodies,
    } = read_module(alloc, name, scoped, &*known)?;
    join(alloc, known, names, bodies)?;
    Ok(TypedChunk { types })
}
