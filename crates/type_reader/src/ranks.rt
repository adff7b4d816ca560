ghost use Rattle.std.specs.Prelude.{◌≡◌, true, IfOk};
ghost use Rattle.type_reader.specs.Declarations.{form_uses, own_name, own_names as own_names_of, own_uses};
ghost use Rattle.type_reader.specs.Lent.{declared_in, form_of};
ghost use Rattle.type_reader.specs.Ranks.{IsFalling, falls_at, name_falls as name_falls_in, rank_at, uses_fall as uses_fall_in};
ghost use Rattle.type_reader.specs.SeenUses.{used_in};

use crate::declarations::Form;
use crate::graph::Graph;
use crate::own_names::OwnNames;
use crate::typing::Module;
use crate::uses::{Used, Uses};
use std::alloc::Global;
use tl_base::NoMemory;

fn rank(ranks: &[usize], at: usize) -> usize
    ensures { result ≡ rank_at ranks.now at }
{
    match ranks.get(at) {
        Some(rank) => *rank,
        None => 0,
    }
}

/// Whether a name has a rank below the limit, or is none of the module's own.
fn name_falls<'a>(own: &OwnNames<'a>, ranks: &[usize], limit: usize, name: &'a [u8]) -> bool
    ensures { result ≡ name_falls_in own.now ranks.now limit name.now }
{
    match own.find(name) {
        Some(at) => rank(ranks, at) < limit,
        None => true,
    }
}

/// Whether what is used is of another module, or falls.
fn use_falls<'a>(own: &OwnNames<'a>, ranks: &[usize], limit: usize, used: Used<'a>) -> bool
    ensures { result ≡ uses_fall_in own.now ranks.now limit (own_name used.entry.parts.now used.entry.name.now) }
{
    match used.parts {
        [] => name_falls(own, ranks, limit, used.name),
        [_, ..] => true,
    }
}

/// Whether each of the module's own names among these has a rank below the limit.
fn uses_fall<'a>(own: &OwnNames<'a>, ranks: &[usize], limit: usize, uses: &Uses<'a>) -> bool
    ensures { result ≡ uses_fall_in own.now ranks.now limit (own_uses (used_in uses.now)) }
{
    for used in uses.as_slice() {
        if !use_falls(own, ranks, limit, *used) {
            return false;
        }
    }
    true
}

/// Whether an alias uses ranks below the limit alone.
fn form_falls<'a>(
    alloc: Global,
    own: &OwnNames<'a>,
    ranks: &[usize],
    limit: usize,
    form: Form<'a>,
) -> Result<bool, NoMemory>
    ensures { IfOk result (λ b. b ≡ uses_fall_in own.now ranks.now limit (form_uses (form_of form.entry))) }
{
    match form {
        Form::Interface(_, _) => Ok(true),
        Form::Alias(e) => {
            let mut uses = Uses::new(alloc);
            uses.ty(e)?;
            Ok(uses_fall(own, ranks, limit, &uses))
        }
    }
}

/// Whether no alias uses a higher rank than its own.
fn are_falling<'a>(alloc: Global, module: Module<'_, 'a>, ranks: &[usize]) -> Result<bool, NoMemory>
    requires { «module».own.now ≡ own_names_of (declared_in «module».declared.now) }
    ensures { IfOk result (λ b. b ≡ true → IsFalling (declared_in «module».entry.declared.now) ranks.now) }
{
    for at in 0..module.declared.len() {
        let limit = rank(ranks, at);
        if limit == usize::MAX {
            return Ok(false);
        }
        if !form_falls(
            alloc,
            module.own,
            ranks,
            limit + 1,
            module.declared[at].form,
        )? {
            return Ok(false);
        }
    }
    Ok(true)
}

/// The graph, without ranks where an alias uses a higher one than its own.
pub fn looked_at<'a>(alloc: Global, module: Module<'_, 'a>, graph: Graph) -> Result<Graph, NoMemory>
    requires { «module».own.now ≡ own_names_of (declared_in «module».declared.now) }
    ensures { IfOk result (λ g. IsFalling (declared_in «module».entry.declared.now) g.ranks.items) }
{
    if are_falling(alloc, module, graph.ranks.as_slice())? {
        return Ok(graph);
    }
    let mut graph = graph;
    graph.ranks.clear();
    Ok(graph)
}

/// Whether the alias of this number uses lower ranks than its own alone.
pub fn is_straight<'a>(
    alloc: Global,
    module: Module<'_, 'a>,
    ranks: &[usize],
    at: usize,
) -> Result<bool, NoMemory>
    requires { «module».own.now ≡ own_names_of (declared_in «module».declared.now) }
    ensures { IfOk result (λ b. b ≡ falls_at (declared_in «module».entry.declared.now) ranks.now at) }
{
    match module.declared.get(at) {
        Some(declaration) => form_falls(
            alloc,
            module.own,
            ranks,
            rank(ranks, at),
            declaration.form,
        ),
        None => Ok(false),
    }
}
