//! Trees without tables, in which no constructor, index, method call or method statement stands.

ghost use Rattle.std.specs.Prelude.{◌≡◌};
ghost use Rattle.std.specs.Option.{option_map};
ghost use Rattle.lua_tree.specs.View.{exp_of, exps_of, targets_of, clauses_of, else_from, step_from, stat_of, block_of};
ghost use Rattle.built_forms.specs.Forms as forms;

use lua_tree::{Block, Clause, Expr, Stat};

#[cycle(untyped)]
fn is_built_exp(e: &Expr) -> bool
    ensures { result ≡ forms.built_exp (exp_of e.now) }
{
    match e {
        Expr::Nil(_)
        | Expr::Bool(..)
        | Expr::Int(..)
        | Expr::Str(..)
        | Expr::Vararg(_)
        | Expr::Name(..) => true,
        Expr::Field(..) | Expr::Index(..) | Expr::Method(..) | Expr::Table(..) => false,
        Expr::Function(_, body) => is_built_block(&body.get().block),
        Expr::Paren(_, inner) => is_built_exp(inner.get()),
        Expr::Unary(_, _, operand) => is_built_exp(operand.get()),
        Expr::Mark(_, inner) => is_built_exp(inner.get()),
        Expr::Binary(_, _, left, right) => is_built_exp(left.get()) && is_built_exp(right.get()),
        Expr::Call(_, callee, arguments) => {
            is_built_exp(callee.get()) && are_built_exps(arguments.as_slice())
        }
    }
}

#[cycle(untyped)]
fn are_built_exps(all: &[Expr]) -> bool
    ensures { result ≡ forms.built_exps (exps_of all.now) }
{
    for e in all {
        if !is_built_exp(e) {
            return false;
        }
    }
    true
}

#[cycle(untyped)]
fn are_built_targets(all: &[Expr]) -> bool
    ensures { result ≡ forms.built_targets (targets_of all.now) }
{
    for e in all {
        if !is_built_exp(e) {
            return false;
        }
    }
    true
}

#[cycle(untyped)]
fn are_built_clauses(all: &[Clause]) -> bool
    ensures { result ≡ forms.built_clauses (clauses_of all.now) }
{
    for clause in all {
        if !is_built_exp(&clause.condition) || !is_built_block(&clause.block) {
            return false;
        }
    }
    true
}

#[cycle(untyped)]
fn is_built_else(otherwise: &Option<Block>) -> bool
    ensures { result ≡ forms.built_else (else_from (option_map block_of otherwise.now)) }
{
    match otherwise {
        Some(block) => is_built_block(block),
        None => true,
    }
}

#[cycle(untyped)]
fn is_built_step(step: &Option<Expr>) -> bool
    ensures { result ≡ forms.built_step (step_from (option_map exp_of step.now)) }
{
    match step {
        Some(e) => is_built_exp(e),
        None => true,
    }
}

#[cycle(untyped)]
fn is_built_stat(stat: &Stat) -> bool
    ensures { result ≡ forms.built_stat (stat_of stat.now) }
{
    match stat {
        Stat::Empty(_) | Stat::Break(_) | Stat::Interface(..) | Stat::Alias(..) => true,
        Stat::Method(..) => false,
        Stat::Assign(_, targets, values) => {
            are_built_targets(targets.as_slice()) && are_built_exps(values.as_slice())
        }
        Stat::Call(_, call) => is_built_exp(call),
        Stat::Do(_, block) => is_built_block(block),
        Stat::While(_, condition, block) => is_built_exp(condition) && is_built_block(block),
        Stat::Repeat(_, block, condition) => is_built_block(block) && is_built_exp(condition),
        Stat::If(_, clauses, otherwise) => {
            are_built_clauses(clauses.as_slice()) && is_built_else(otherwise)
        }
        Stat::NumericFor(_, _, first, limit, step, block) => {
            is_built_exp(first)
                && is_built_exp(limit)
                && is_built_step(step)
                && is_built_block(block)
        }
        Stat::GenericFor(_, _, values, block) => {
            are_built_exps(values.as_slice()) && is_built_block(block)
        }
        Stat::Function(_, target, function) => is_built_exp(target) && is_built_exp(function),
        Stat::LocalFunction(_, _, function) => is_built_exp(function),
        Stat::Local(_, _, values) => are_built_exps(values.as_slice()),
    }
}

/// Whether no table, index or method stands in a block, nor in the functions in it. Its calls nest as deep as the tree does.
#[cycle(untyped)]
pub fn is_built_block(block: &Block) -> bool
    ensures { result ≡ forms.built_block (block_of block.now) }
{
    for stat in block.stats.as_slice() {
        if !is_built_stat(stat) {
            return false;
        }
    }
    match &block.result {
        Some(result) => are_built_exps(result.values.as_slice()),
        None => true,
    }
}
