ghost use Rattle.std.specs.Prelude.{◌≡◌, IfOk};
ghost use Rattle.std.specs.Option.{option_map};
ghost use Rattle.lua_tree.specs.View.{SeenEntry, exp_of, exps_of, entries_of, entry_of, stat_of, block_of, function_of, targets_of, clauses_of, step_from, else_from};
ghost use Rattle.lua_meaning.specs.Locals.{exp_locals as exp_locals_of, exps_locals, entries_locals, function_locals, targets_locals as targets_locals_of, clauses_locals, step_locals, else_locals, stat_locals as stat_locals_of, block_locals as block_locals_of};
ghost use Rattle.code_gen.specs.Locals.{entry_locals};

use crate::sums::sum;
use lua_tree::{Block, Body, Clause, Entry, Expr, Stat};
use tl_base::NoMemory;

/// How many locals the text of an expression declares.
#[cycle(locals)]
pub fn exp_locals(e: &Expr) -> Result<u64, NoMemory>
    ensures { IfOk result (λ n. n ≡ exp_locals_of (exp_of e.now)) }
{
    match e {
        Expr::Nil(_)
        | Expr::Bool(..)
        | Expr::Int(..)
        | Expr::Str(..)
        | Expr::Vararg(_)
        | Expr::Name(..) => Ok(0),
        Expr::Function(_, body) => body_locals(body.get()),
        Expr::Paren(_, inner) => exp_locals(inner.get()),
        Expr::Field(_, inner, _) => exp_locals(inner.get()),
        Expr::Unary(_, _, inner) => exp_locals(inner.get()),
        Expr::Mark(_, inner) => exp_locals(inner.get()),
        Expr::Index(_, left, right) => sum(exp_locals(left.get())?, exp_locals(right.get())?),
        Expr::Binary(_, _, left, right) => sum(exp_locals(left.get())?, exp_locals(right.get())?),
        Expr::Call(_, callee, arguments) => {
            sum(exp_locals(callee.get())?, all_locals(arguments.as_slice())?)
        }
        Expr::Method(_, object, _, arguments) => {
            sum(exp_locals(object.get())?, all_locals(arguments.as_slice())?)
        }
        Expr::Table(_, entries) => all_entry_locals(entries.as_slice()),
    }
}

/// How many locals the text of some expressions declares.
#[cycle(locals)]
pub fn all_locals(all: &[Expr]) -> Result<u64, NoMemory>
    ensures { IfOk result (λ n. n ≡ exps_locals (exps_of all.now)) }
{
    let mut total = 0;
    for e in all {
        total = sum(total, exp_locals(e)?)?;
    }
    Ok(total)
}

/// How many locals the text of an assignment's targets declares.
#[cycle(locals)]
pub fn targets_locals(all: &[Expr]) -> Result<u64, NoMemory>
    ensures { IfOk result (λ n. n ≡ targets_locals_of (targets_of all.now)) }
{
    let mut total = 0;
    for e in all {
        total = sum(total, exp_locals(e)?)?;
    }
    Ok(total)
}

/// How many locals the text of a table's entries declares.
#[cycle(locals)]
pub fn all_entry_locals(all: &[Entry]) -> Result<u64, NoMemory>
    ensures { IfOk result (λ n. n ≡ entries_locals (entries_of all.now)) }
{
    let mut total = 0;
    for entry in all {
        total = sum(total, entry_locals(entry)?)?;
    }
    Ok(total)
}

#[cycle(locals)]
fn entry_locals(entry: &Entry) -> Result<u64, NoMemory>
    ensures { IfOk result (λ n. n ≡ entry_locals (entry_of entry.now)) }
{
    match entry {
        Entry::Keyed(key, value) => sum(exp_locals(key)?, exp_locals(value)?),
        Entry::Named(_, value) => exp_locals(value),
        Entry::Item(value) => exp_locals(value),
    }
}

#[cycle(locals)]
fn body_locals(body: &Body) -> Result<u64, NoMemory>
    ensures { IfOk result (λ n. n ≡ function_locals (function_of body.now)) }
{
    sum(body.params.len() as u64, block_locals(&body.block)?)
}

#[cycle(locals)]
fn clauses_locals(all: &[Clause]) -> Result<u64, NoMemory>
    ensures { IfOk result (λ n. n ≡ clauses_locals (clauses_of all.now)) }
{
    let mut total = 0;
    for clause in all {
        let condition = exp_locals(&clause.condition)?;
        total = sum(total, sum(condition, block_locals(&clause.block)?)?)?;
    }
    Ok(total)
}

/// How many locals the text of a block declares.
#[cycle(locals)]
pub fn block_locals(block: &Block) -> Result<u64, NoMemory>
    ensures { IfOk result (λ n. n ≡ block_locals_of (block_of block.now)) }
{
    let mut total = 0;
    for stat in block.stats.as_slice() {
        total = sum(total, stat_locals(stat)?)?;
    }
    match &block.result {
        Some(result) => sum(total, all_locals(result.values.as_slice())?),
        None => Ok(total),
    }
}

#[cycle(locals)]
fn stat_locals(stat: &Stat) -> Result<u64, NoMemory>
    ensures { IfOk result (λ n. n ≡ stat_locals_of (stat_of stat.now)) }
{
    match stat {
        Stat::Empty(_) | Stat::Break(_) | Stat::Interface(..) | Stat::Alias(..) => Ok(0),
        Stat::Assign(_, targets, values) => {
            let left = targets_locals(targets.as_slice())?;
            sum(left, all_locals(values.as_slice())?)
        }
        Stat::Call(_, call) => exp_locals(call),
        Stat::Do(_, block) => block_locals(block),
        Stat::While(_, condition, block) => { sum(exp_locals(condition)?, block_locals(block)?) }
        Stat::Repeat(_, block, condition) => { sum(block_locals(block)?, exp_locals(condition)?) }
        Stat::If(_, clauses, otherwise) => {
            let total = clauses_locals(clauses.as_slice())?;
            match otherwise {
                Some(block) => sum(total, block_locals(block)?),
                None => Ok(total),
            }
        }
        Stat::NumericFor(_, _, first, limit, step, block) => {
            let bounds = sum(sum(1, exp_locals(first)?)?, exp_locals(limit)?)?;
            let begun = match step {
                Some(step) => sum(bounds, exp_locals(step)?)?,
                None => bounds,
            };
            sum(begun, block_locals(block)?)
        }
        Stat::GenericFor(_, names, values, block) => {
            let begun = sum(names.len() as u64, all_locals(values.as_slice())?)?;
            sum(begun, block_locals(block)?)
        }
        Stat::Function(_, target, function) => { sum(exp_locals(target)?, exp_locals(function)?) }
        Stat::Method(_, object, _, function) => {
            sum(sum(exp_locals(object)?, 1)?, exp_locals(function)?)
        }
        Stat::LocalFunction(_, _, function) => sum(1, exp_locals(function)?),
        Stat::Local(_, names, values) => { sum(names.len() as u64, all_locals(values.as_slice())?) }
    }
}
