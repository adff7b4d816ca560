//! The marks of trees, put at the end of a list in the order in which they are passed. The calls nest as deep as the trees do.

ghost use Rattle.std.specs.Prelude.{◌≡◌, ◌++◌, OnOk};
ghost use Rattle.std.specs.Option.{option_map};
ghost use Rattle.lua_tree.specs.View.{exp_of, exps_of, entry_of, entries_of, targets_of, clauses_of, else_from, step_from, stat_of, block_of};
ghost use Rattle.tl_rules.specs.Crossings as rules;
ghost use Rattle.crossings.specs.Entries.{seen_marks};

use lua_tree::{Block, Clause, Entry, Expr, Stat};
use tl_base::{Crossing, NoMemory};

#[cycle(marks)]
fn exp_marks(e: &Expr, marks: &mut Vec<Crossing>) -> Result<(), NoMemory>
    ensures { OnOk result (marks.new.items ≡ marks.old.items ++ rules.marks_of (exp_of e.now)) }
{
    match e {
        Expr::Nil(_)
        | Expr::Bool(..)
        | Expr::Int(..)
        | Expr::Str(..)
        | Expr::Vararg(_)
        | Expr::Name(..) => Ok(()),
        Expr::Function(_, body) => block_marks(&body.get().block, marks),
        Expr::Paren(_, inner) => exp_marks(inner.get(), marks),
        Expr::Field(_, object, _) => exp_marks(object.get(), marks),
        Expr::Index(_, object, key) => {
            exp_marks(object.get(), marks)?;
            exp_marks(key.get(), marks)
        }
        Expr::Call(_, callee, arguments) => {
            exp_marks(callee.get(), marks)?;
            list_marks(arguments.as_slice(), marks)
        }
        Expr::Method(_, object, _, arguments) => {
            exp_marks(object.get(), marks)?;
            list_marks(arguments.as_slice(), marks)
        }
        Expr::Table(_, entries) => entry_marks(entries.as_slice(), marks),
        Expr::Unary(_, _, operand) => exp_marks(operand.get(), marks),
        Expr::Binary(_, _, left, right) => {
            exp_marks(left.get(), marks)?;
            exp_marks(right.get(), marks)
        }
        Expr::Mark(kind, inner) => {
            exp_marks(inner.get(), marks)?;
            marks.push(Crossing {
                pos: inner.get().pos(),
                kind: *kind,
            })?;
            Ok(())
        }
    }
}

#[cycle(marks)]
#[tactic(auto, using(crate::proofs::Lists::list_more))]
fn list_marks(all: &[Expr], marks: &mut Vec<Crossing>) -> Result<(), NoMemory>
    ensures { OnOk result (marks.new.items ≡ marks.old.items ++ rules.list_marks (exps_of all.now)) }
{
    for e in all {
        exp_marks(e, marks)?;
    }
    Ok(())
}

#[cycle(marks)]
#[tactic(auto, using(crate::proofs::Lists::entries_more))]
fn entry_marks(all: &[Entry], marks: &mut Vec<Crossing>) -> Result<(), NoMemory>
    ensures { OnOk result (marks.new.items ≡ marks.old.items ++ rules.entry_marks (entries_of all.now)) }
{
    for entry in all {
        one_entry_marks(entry, marks)?;
    }
    Ok(())
}

#[cycle(marks)]
fn one_entry_marks(entry: &Entry, marks: &mut Vec<Crossing>) -> Result<(), NoMemory>
    ensures { OnOk result (marks.new.items ≡ marks.old.items ++ seen_marks (entry_of entry.now)) }
{
    match entry {
        Entry::Keyed(key, value) => {
            exp_marks(key, marks)?;
            exp_marks(value, marks)
        }
        Entry::Named(_, value) => exp_marks(value, marks),
        Entry::Item(value) => exp_marks(value, marks),
    }
}

#[cycle(marks)]
fn target_marks(all: &[Expr], marks: &mut Vec<Crossing>) -> Result<(), NoMemory>
    ensures { OnOk result (marks.new.items ≡ marks.old.items ++ rules.target_marks (targets_of all.now)) }
{
    for e in all {
        exp_marks(e, marks)?;
    }
    Ok(())
}

#[cycle(marks)]
fn clause_marks(all: &[Clause], marks: &mut Vec<Crossing>) -> Result<(), NoMemory>
    ensures { OnOk result (marks.new.items ≡ marks.old.items ++ rules.clause_marks (clauses_of all.now)) }
{
    for clause in all {
        exp_marks(&clause.condition, marks)?;
        block_marks(&clause.block, marks)?;
    }
    Ok(())
}

#[cycle(marks)]
fn else_marks(otherwise: &Option<Block>, marks: &mut Vec<Crossing>) -> Result<(), NoMemory>
    ensures { OnOk result (marks.new.items ≡ marks.old.items ++ rules.else_marks (else_from (option_map block_of otherwise.now))) }
{
    match otherwise {
        Some(block) => block_marks(block, marks),
        None => Ok(()),
    }
}

#[cycle(marks)]
fn step_marks(step: &Option<Expr>, marks: &mut Vec<Crossing>) -> Result<(), NoMemory>
    ensures { OnOk result (marks.new.items ≡ marks.old.items ++ rules.step_marks (step_from (option_map exp_of step.now))) }
{
    match step {
        Some(e) => exp_marks(e, marks),
        None => Ok(()),
    }
}

#[cycle(marks)]
fn stat_marks(stat: &Stat, marks: &mut Vec<Crossing>) -> Result<(), NoMemory>
    ensures { OnOk result (marks.new.items ≡ marks.old.items ++ rules.stat_marks (stat_of stat.now)) }
{
    match stat {
        Stat::Empty(_) | Stat::Break(_) | Stat::Interface(..) | Stat::Alias(..) => Ok(()),
        Stat::Assign(_, targets, values) => {
            target_marks(targets.as_slice(), marks)?;
            list_marks(values.as_slice(), marks)
        }
        Stat::Call(_, call) => exp_marks(call, marks),
        Stat::Do(_, block) => block_marks(block, marks),
        Stat::While(_, condition, block) => {
            exp_marks(condition, marks)?;
            block_marks(block, marks)
        }
        Stat::Repeat(_, block, condition) => {
            block_marks(block, marks)?;
            exp_marks(condition, marks)
        }
        Stat::If(_, clauses, otherwise) => {
            clause_marks(clauses.as_slice(), marks)?;
            else_marks(otherwise, marks)
        }
        Stat::NumericFor(_, _, first, limit, step, block) => {
            exp_marks(first, marks)?;
            exp_marks(limit, marks)?;
            step_marks(step, marks)?;
            block_marks(block, marks)
        }
        Stat::GenericFor(_, _, values, block) => {
            list_marks(values.as_slice(), marks)?;
            block_marks(block, marks)
        }
        Stat::Function(_, target, function) => {
            exp_marks(target, marks)?;
            exp_marks(function, marks)
        }
        Stat::Method(_, object, _, function) => {
            exp_marks(object, marks)?;
            exp_marks(function, marks)
        }
        Stat::LocalFunction(_, _, function) => exp_marks(function, marks),
        Stat::Local(_, _, values) => list_marks(values.as_slice(), marks),
    }
}

/// Puts the marks of a block at the end, those of the functions in it too.
#[cycle(marks)]
pub fn block_marks(block: &Block, marks: &mut Vec<Crossing>) -> Result<(), NoMemory>
    ensures { OnOk result (marks.new.items ≡ marks.old.items ++ rules.block_marks (block_of block.now)) }
{
    for stat in block.stats.as_slice() {
        stat_marks(stat, marks)?;
    }
    match &block.result {
        Some(result) => list_marks(result.values.as_slice(), marks),
        None => Ok(()),
    }
}
