ghost use Rattle.std.specs.Prelude.{◌≡◌, ◌+◌, IfOk};
ghost use Rattle.std.specs.Option.{option_map};
ghost use Rattle.lua_tree.specs.View.{exp_of, exps_of, stat_of, block_of, clauses_of};
ghost use Rattle.lua_code.specs.Sizes.{operator_slots as operator_slots_of, exp_slots as exp_slots_of, exps_slots, stat_slots as stat_slots_of, stat_declares as stat_declares_of, block_declares as block_declares_of, clauses_slots as clauses_slots_of, block_slots as block_slots_of};

use crate::sums::sum;
use lua_tree::{BinaryOperator, Block, Clause, Expr, Stat};
use std::cmp::max;
use tl_base::NoMemory;

/// How many slots are taken while the right operand is computed.
pub fn operator_slots(operator: BinaryOperator) -> u64
    ensures { result ≡ operator_slots_of operator }
{
    match operator {
        BinaryOperator::Greater | BinaryOperator::GreaterEqual => 1,
        BinaryOperator::Or
        | BinaryOperator::And
        | BinaryOperator::Less
        | BinaryOperator::LessEqual
        | BinaryOperator::NotEqual
        | BinaryOperator::Equal
        | BinaryOperator::BitOr
        | BinaryOperator::BitXor
        | BinaryOperator::BitAnd
        | BinaryOperator::ShiftLeft
        | BinaryOperator::ShiftRight
        | BinaryOperator::Concat
        | BinaryOperator::Add
        | BinaryOperator::Subtract
        | BinaryOperator::Multiply
        | BinaryOperator::Divide
        | BinaryOperator::Modulo => 0,
    }
}

/// How many slots an expression takes, from the first free one on.
#[cycle(slots_of_values)]
fn exp_slots(e: &Expr) -> Result<u64, NoMemory>
    ensures { IfOk result (λ n. n ≡ exp_slots_of (exp_of e.now)) }
{
    match e {
        Expr::Nil(_)
        | Expr::Bool(..)
        | Expr::Int(..)
        | Expr::Str(..)
        | Expr::Function(..)
        | Expr::Name(..)
        | Expr::Field(..)
        | Expr::Index(..)
        | Expr::Table(..)
        | Expr::Vararg(_)
        | Expr::Method(..) => Ok(0),
        Expr::Paren(_, inner) => exp_slots(inner.get()),
        Expr::Unary(_, _, inner) => exp_slots(inner.get()),
        Expr::Mark(_, inner) => exp_slots(inner.get()),
        Expr::Call(_, callee, arguments) => {
            let first = exp_slots(callee.get())?;
            Ok(max(first, all_slots(arguments.as_slice())?))
        }
        Expr::Binary(_, operator, left, right) => {
            let first = exp_slots(left.get())?;
            let second = sum(operator_slots(*operator), exp_slots(right.get())?)?;
            Ok(max(first, second))
        }
    }
}

#[cycle(slots_of_values)]
fn all_slots(all: &[Expr]) -> Result<u64, NoMemory>
    ensures { IfOk result (λ n. n ≡ exps_slots (exps_of all.now)) }
{
    let mut most = 0;
    for e in all {
        most = max(most, exp_slots(e)?);
    }
    Ok(most)
}

#[cycle(slots_of_blocks)]
fn clauses_slots(all: &[Clause]) -> Result<u64, NoMemory>
    ensures { IfOk result (λ n. n ≡ clauses_slots_of (clauses_of all.now)) }
{
    let mut most = 0;
    for clause in all {
        let test = exp_slots(&clause.condition)?;
        most = max(most, max(test, block_slots(&clause.block)?));
    }
    Ok(most)
}

/// How many slots a block takes, from the first free one on.
#[cycle(slots_of_blocks)]
pub fn block_slots(block: &Block) -> Result<u64, NoMemory>
    ensures { IfOk result (λ n. n ≡ block_slots_of (block_of block.now)) }
{
    let mut most = 0;
    let mut taken = 0;
    for stat in block.stats.as_slice() {
        most = max(most, sum(taken, stat_slots(stat)?)?);
        taken = sum(taken, stat_declares(stat))?;
    }
    match &block.result {
        Some(result) => Ok(max(most, sum(taken, all_slots(result.values.as_slice())?)?)),
        None => Ok(max(most, taken)),
    }
}

/// How many locals a statement leaves in scope.
fn stat_declares(stat: &Stat) -> u64
    ensures { result ≡ stat_declares_of (stat_of stat.now) }
{
    match stat {
        Stat::LocalFunction(..) => 1,
        Stat::Local(_, names, _) => names.len() as u64,
        Stat::Empty(_)
        | Stat::Assign(..)
        | Stat::Call(..)
        | Stat::Break(_)
        | Stat::Do(..)
        | Stat::While(..)
        | Stat::Repeat(..)
        | Stat::If(..)
        | Stat::NumericFor(..)
        | Stat::GenericFor(..)
        | Stat::Function(..)
        | Stat::Method(..)
        | Stat::Interface(..)
        | Stat::Alias(..) => 0,
    }
}

/// How many locals a block leaves in scope at its end.
fn block_declares(block: &Block) -> Result<u64, NoMemory>
    ensures { IfOk result (λ n. n ≡ block_declares_of (block_of block.now)) }
{
    let mut total = 0;
    for stat in block.stats.as_slice() {
        total = sum(total, stat_declares(stat))?;
    }
    Ok(total)
}

#[cycle(slots_of_blocks)]
fn stat_slots(stat: &Stat) -> Result<u64, NoMemory>
    ensures { IfOk result (λ n. n ≡ stat_slots_of (stat_of stat.now)) }
{
    match stat {
        Stat::Empty(_)
        | Stat::Break(_)
        | Stat::Method(..)
        | Stat::Interface(..)
        | Stat::Alias(..) => Ok(0),
        Stat::Assign(_, _, values) => all_slots(values.as_slice()),
        Stat::Call(_, call) => exp_slots(call),
        Stat::Do(_, block) => block_slots(block),
        Stat::While(_, condition, block) => {
            let test = exp_slots(condition)?;
            Ok(max(test, block_slots(block)?))
        }
        Stat::Repeat(_, block, condition) => {
            let test = sum(block_declares(block)?, exp_slots(condition)?)?;
            Ok(max(block_slots(block)?, test))
        }
        Stat::If(_, clauses, otherwise) => {
            let most = clauses_slots(clauses.as_slice())?;
            match otherwise {
                Some(block) => Ok(max(most, block_slots(block)?)),
                None => Ok(most),
            }
        }
        Stat::NumericFor(_, _, first, limit, step, block) => {
            let bounds = max(exp_slots(first)?, sum(1, exp_slots(limit)?)?);
            let begun = match step {
                Some(step) => max(bounds, sum(2, exp_slots(step)?)?),
                None => max(bounds, 2),
            };
            Ok(max(begun, sum(4, block_slots(block)?)?))
        }
        Stat::GenericFor(_, names, values, block) => {
            let taken = sum(3, names.len() as u64)?;
            let listed = all_slots(values.as_slice())?;
            Ok(max(listed, sum(taken, block_slots(block)?)?))
        }
        Stat::Function(_, _, function) => exp_slots(function),
        Stat::LocalFunction(_, _, function) => sum(1, exp_slots(function)?),
        Stat::Local(_, names, values) => {
            let listed = all_slots(values.as_slice())?;
            Ok(max(listed, names.len() as u64))
        }
    }
}
