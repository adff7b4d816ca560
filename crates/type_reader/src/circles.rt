ghost use Rattle.std.specs.Prelude.{◌≡◌, ℕ, length, map, false, IfOk, OnOk};
ghost use Rattle.type_reader.specs.Declarations.{uses_lead, own_flag, own_uses, form_uses, leads_to, is_circular as is_circular_in, own_names as own_names_of};
ghost use Rattle.type_reader.specs.SeenUses.{used_in};
ghost use Rattle.type_reader.specs.Lent.{declared_in, form_of};
ghost use Rattle.type_reader.specs.Ranks.{IsFalling};
ghost use Rattle.type_reader.specs.Rising.{Rises, Turns, Passed};

use crate::declarations::{Declaration, Form};
use crate::graph::Graph;
use crate::own_names::OwnNames;
use crate::ranks::is_straight;
use crate::typing::Module;
use crate::uses::Uses;
use std::alloc::Global;
use tl_base::NoMemory;

/// Whether a name of the module's own has its flag.
fn has_flag<'a>(own: &OwnNames<'a>, flags: &[bool], name: &'a [u8]) -> bool
    ensures { result ≡ own_flag own.now flags.now name.now }
{
    match own.find(name) {
        Some(at) => match flags.get(at) {
            Some(flag) => *flag,
            None => false,
        },
        None => false,
    }
}

/// Whether one of the module's own names that are used is this one, or has its flag.
fn one_leads<'a>(own: &OwnNames<'a>, to: &'a [u8], flags: &[bool], uses: &Uses<'a>) -> bool
    ensures { result ≡ uses_lead own.now to.now flags.now (own_uses (used_in uses.now)) }
{
    for used in uses.as_slice() {
        match used.parts {
            [] => {
                if used.name == to || has_flag(own, flags, used.name) {
                    return true;
                }
            }
            [_, ..] => {}
        }
    }
    false
}

/// Whether what is declared leads there by the flags.
fn form_leads<'a>(
    alloc: Global,
    own: &OwnNames<'a>,
    to: &'a [u8],
    flags: &[bool],
    form: Form<'a>,
) -> Result<bool, NoMemory>
    ensures { IfOk result (λ b. b ≡ uses_lead own.now to.now flags.now (form_uses (form_of form.entry))) }
{
    match form {
        Form::Interface(_, _) => Ok(false),
        Form::Alias(e) => {
            let mut uses = Uses::new(alloc);
            uses.ty(e)?;
            Ok(one_leads(own, to, flags, &uses))
        }
    }
}

/// Gives one name its flag, where it has none and leads there. It says whether it did.
fn turn<'a>(
    alloc: Global,
    module: Module<'_, 'a>,
    to: &'a [u8],
    flags: &mut Vec<bool>,
    at: usize,
) -> Result<bool, NoMemory>
    requires own { «module».own.now ≡ own_names_of (declared_in «module».declared.now) }
    requires length { length flags.old.items ≡ length «module».declared.now }
    ensures { IfOk result (λ b. Turns (declared_in «module».entry.declared.now) to.now flags.old.items flags.new.items at b) }
{
    let Some(declaration) = module.declared.get(at) else {
        return Ok(false);
    };
    if flags[at] {
        return Ok(false);
    }
    if form_leads(alloc, module.own, to, flags.as_slice(), declaration.form)? {
        flags[at] = true;
        Ok(true)
    } else {
        Ok(false)
    }
}

/// No name has a flag.
fn no_flags(alloc: Global, declared: &[Declaration<'_>]) -> Result<Vec<bool>, NoMemory>
    ensures { IfOk result (λ fs. fs.items ≡ map (λ d. false) (declared_in declared.now)) }
{
    let mut flags = Vec::new(alloc);
    for _ in declared {
        flags.push(false)?;
    }
    Ok(flags)
}

/// Gives flags to names in this order, as far as they lead there.
fn turn_in_order<'a>(
    alloc: Global,
    module: Module<'_, 'a>,
    to: &'a [u8],
    flags: &mut Vec<bool>,
    order: &[usize],
) -> Result<(), NoMemory>
    requires own { «module».own.now ≡ own_names_of (declared_in «module».declared.now) }
    requires length { length flags.old.items ≡ length «module».declared.now }
    ensures { OnOk result ((n : ℕ) × Rises (declared_in «module».entry.declared.now) to.now n flags.old.items flags.new.items) }
{
    for at in order {
        turn(alloc, module, to, flags, *at)?;
    }
    Ok(())
}

/// Gives flags to all names that lead there by the flags, and says whether there was one.
fn pass<'a>(
    alloc: Global,
    module: Module<'_, 'a>,
    to: &'a [u8],
    flags: &mut Vec<bool>,
) -> Result<bool, NoMemory>
    requires own { «module».own.now ≡ own_names_of (declared_in «module».declared.now) }
    requires length { length flags.old.items ≡ length «module».declared.now }
    ensures { IfOk result (λ b. Passed (declared_in «module».entry.declared.now) to.now flags.old.items flags.new.items (length «module».entry.declared.now) b) }
{
    let mut changed = false;
    for at in 0..module.declared.len() {
        if turn(alloc, module, to, flags, at)? {
            changed = true;
        }
    }
    Ok(changed)
}

/// Which of the module's own names lead to this one by aliases. The order tells in which they are looked at first.
fn find_flags<'a>(
    alloc: Global,
    module: Module<'_, 'a>,
    to: &'a [u8],
    order: &[usize],
) -> Result<Vec<bool>, NoMemory>
    requires own { «module».own.now ≡ own_names_of (declared_in «module».declared.now) }
    ensures { IfOk result (λ fs. fs.items ≡ leads_to (declared_in «module».entry.declared.now) to.now (length (declared_in «module».entry.declared.now))) }
{
    let mut flags = no_flags(alloc, module.declared)?;
    turn_in_order(alloc, module, to, &mut flags, order)?;
    while pass(alloc, module, to, &mut flags)? {}
    Ok(flags)
}

/// Whether the alias of a name leads to itself by aliases. One that uses lower ranks alone doesn't; for others all names that lead there are found.
pub fn is_circular<'a>(
    alloc: Global,
    module: Module<'_, 'a>,
    name: &'a [u8],
    graph: &Graph,
) -> Result<bool, NoMemory>
    requires own { «module».own.now ≡ own_names_of (declared_in «module».declared.now) }
    requires falling { IsFalling (declared_in «module».declared.now) graph.now.ranks.items }
    ensures { IfOk result (λ b. b ≡ is_circular_in (declared_in «module».entry.declared.now) name.now) }
{
    let Some(at) = module.own.find(name) else {
        return Ok(false);
    };
    if is_straight(alloc, module, graph.ranks.as_slice(), at)? {
        return Ok(false);
    }
    let order = graph.leading(alloc, at)?;
    let flags = find_flags(alloc, module, name, &order)?;
    Ok(has_flag(module.own, &flags, name))
}
