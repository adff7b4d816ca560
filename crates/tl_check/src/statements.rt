ghost use Rattle.std.specs.Prelude.{◌≡◌};
ghost use Rattle.std.specs.List.{slice_get};
ghost use Rattle.lua_tree.specs.View.{exp_of, exps_of, stat_of, block_of};
ghost use Rattle.tl_rules.specs.Places.{stat_place};
ghost use Rattle.tl_rules.specs.Orders.{plain_order, loose_order};
ghost use Rattle.tl_base.specs.declared.refusal.Failure.TheVariants.{Refused};
ghost use Rattle.tl_base.specs.declared.refusal.RefusalCode.TheVariants.{X1};
ghost use Rattle.tl_rules.specs.Statements.{is_print, check_callee, check_arguments, check_run, check_stat, check_block};
ghost use Rattle.tl_check.specs.Answers.{Answers, exps_view, stat_view, block_view};
ghost use Rattle.tl_check.specs.Sequences.{statements_of, stats_view};

use crate::expressions::{Typed as TypedExpr, refused, refused_at};
use crate::locals::{assign, local, value};
use lua_tree::{Block, Expr, LibName, Stat, Use};
use std::alloc::Global;
use tl_base::{Boxed, Failure, List, Pos, RefusalCode};
use tl_rules::Local;
use tl_types::Ty;

/// Types the statements of a block and marks them. What is known of the locals stands in `env`, by their numbers.
pub(crate) fn block(
    alloc: Global,
    uses: &[Use],
    env: &mut Vec<Local>,
    block: Block,
) -> Result<Block, Failure>
    ensures { Answers (block_view env.new.items) (check_block uses.now plain_order loose_order env.old.items (block_of block)) result }
{
    let Block {
        stats,
        result: ending,
    } = block;
    let stats = statements(alloc, uses, env, stats)?;
    match ending {
        Some(last) => Err(refused_at(RefusalCode::X1, last.pos)),
        None => Ok(Block {
            stats,
            result: None,
        }),
    }
}

/// Types statements one after the other and marks them.
fn statements(
    alloc: Global,
    uses: &[Use],
    env: &mut Vec<Local>,
    stats: List<Stat>,
) -> Result<List<Stat>, Failure>
    ensures { Answers (stats_view env.new.items) (check_block uses.now plain_order loose_order env.old.items (statements_of stats)) result }
{
    let mut done = List::new(alloc);
    for stat in stats.into_vec() {
        let typed = statement(alloc, uses, env, stat)?;
        done.push(typed)?;
    }
    Ok(done)
}

/// Types a statement and marks it.
fn statement(alloc: Global, uses: &[Use], env: &mut Vec<Local>, stat: Stat) -> Result<Stat, Failure>
    ensures { Answers (stat_view env.new.items) (check_stat uses.now plain_order loose_order env.old.items (stat_of stat)) result }
{
    match stat {
        Stat::Call(pos, expr) => call(alloc, uses, env.as_slice(), pos, expr),
        Stat::Local(pos, names, values) => local(alloc, uses, env, pos, names, values),
        Stat::Assign(pos, targets, values) => assign(alloc, uses, env, pos, targets, values),
        other => Err(without_rule(other)),
    }
}

/// The refusal of a statement of a form without a rule.
fn without_rule(stat: Stat) -> Failure
    ensures { result ≡ Refused (record { code = X1; pos = stat_place (stat_of stat) }) }
{
    let pos = place(&stat);
    drop(stat);
    refused_at(RefusalCode::X1, pos)
}

/// The place of a statement's first token.
fn place(stat: &Stat) -> Pos
    ensures { result ≡ stat_place (stat_of stat.now) }
{
    match stat {
        Stat::Empty(pos)
        | Stat::Assign(pos, ..)
        | Stat::Call(pos, _)
        | Stat::Break(pos)
        | Stat::Do(pos, _)
        | Stat::While(pos, ..)
        | Stat::Repeat(pos, ..)
        | Stat::If(pos, ..)
        | Stat::NumericFor(pos, ..)
        | Stat::GenericFor(pos, ..)
        | Stat::Function(pos, ..)
        | Stat::Method(pos, ..)
        | Stat::LocalFunction(pos, ..)
        | Stat::Local(pos, ..)
        | Stat::Interface(pos, ..)
        | Stat::Alias(pos, ..) => *pos,
    }
}

/// A call that stands alone: so far of `print`.
fn call(alloc: Global, uses: &[Use], env: &[Local], pos: Pos, expr: Expr) -> Result<Stat, Failure>
    ensures { Answers (stat_view env.now) (check_run uses.now plain_order loose_order env.now pos (exp_of expr)) result }
{
    match expr {
        Expr::Call(place, callee, values) => {
            let called = callee_of(uses, callee.into_inner())?;
            let values = arguments(alloc, uses, env, values)?;
            let boxed = Boxed::new(alloc, called)?;
            Ok(Stat::Call(pos, Expr::Call(place, boxed, values)))
        }
        other => Err(refused(RefusalCode::X1, &other)),
    }
}

/// The function that is called: so far `print`.
fn callee_of(uses: &[Use], expr: Expr) -> Result<Expr, Failure>
    ensures { Answers exp_of (check_callee uses.now (exp_of expr)) result }
{
    match expr {
        Expr::Name(pos, number, text) => {
            if is_print(uses, number) {
                Ok(Expr::Name(pos, number, text))
            } else {
                Err(refused_at(RefusalCode::X1, pos))
            }
        }
        other => Err(refused(RefusalCode::X1, &other)),
    }
}

/// Whether a use means `print`.
fn is_print(uses: &[Use], number: u32) -> bool
    ensures { result ≡ is_print (slice_get uses.now number) }
{
    match uses.get(number as usize) {
        Some(Use::Lib(LibName::Print)) => true,
        _ => false,
    }
}

/// The arguments of `print`, each of which flows to `value`.
fn arguments(
    alloc: Global,
    uses: &[Use],
    env: &[Local],
    exprs: List<Expr>,
) -> Result<List<Expr>, Failure>
    ensures { Answers (exps_view env.now) (check_arguments uses.now plain_order loose_order env.now (exps_of exprs)) result }
{
    let mut done = List::new(alloc);
    for expr in exprs.into_vec() {
        let TypedExpr { ty: _, tree } = value(alloc, uses, env, &Ty::Value, expr)?;
        done.push(tree)?;
    }
    Ok(done)
}
