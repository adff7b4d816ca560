ghost use Rattle.std.specs.Prelude.{◌≡◌, ◌+◌, IfOk};
ghost use Rattle.std.specs.Option.{option_map};
ghost use Rattle.lua_tree.specs.View.{exp_of, exps_of, stat_of, block_of, clauses_of};
ghost use Rattle.lua_code.specs.Sizes.{operator_size as operator_size_of, exp_size as exp_size_of, exps_size, stat_size as stat_size_of, clauses_size as clauses_size_of, block_size as block_size_of};
ghost use Rattle.code_gen.specs.Work.{is_open as is_open_at};

use crate::sums::sum;
use lua_tree::{BinaryOperator, Block, Clause, Expr, Stat};
use tl_base::NoMemory;

/// Whether an expression can give any number of values.
pub fn is_open(e: &Expr) -> bool
    ensures { result ≡ is_open_at (exp_of e.now) }
{
    match e {
        Expr::Vararg(_) | Expr::Call(..) | Expr::Method(..) => true,
        Expr::Mark(_, inner) => is_open(inner.get()),
        Expr::Nil(_)
        | Expr::Bool(..)
        | Expr::Int(..)
        | Expr::Str(..)
        | Expr::Function(..)
        | Expr::Name(..)
        | Expr::Paren(..)
        | Expr::Field(..)
        | Expr::Index(..)
        | Expr::Table(..)
        | Expr::Unary(..)
        | Expr::Binary(..) => false,
    }
}

/// How many instructions an operation has besides those of its operands.
fn operator_size(operator: BinaryOperator) -> u64
    ensures { result ≡ operator_size_of operator }
{
    match operator {
        BinaryOperator::Greater | BinaryOperator::GreaterEqual => 3,
        BinaryOperator::NotEqual => 2,
        BinaryOperator::Or
        | BinaryOperator::And
        | BinaryOperator::Less
        | BinaryOperator::LessEqual
        | BinaryOperator::Equal
        | BinaryOperator::BitOr
        | BinaryOperator::BitXor
        | BinaryOperator::BitAnd
        | BinaryOperator::ShiftLeft
        | BinaryOperator::ShiftRight
        | BinaryOperator::Concat
        | BinaryOperator::Add
        | BinaryOperator::Subtract
        | BinaryOperator::Multiply
        | BinaryOperator::Divide
        | BinaryOperator::Modulo => 1,
    }
}

/// How many instructions an expression becomes.
#[cycle(sizes_of_values)]
pub fn exp_size(e: &Expr) -> Result<u64, NoMemory>
    ensures { IfOk result (λ n. n ≡ exp_size_of (exp_of e.now)) }
{
    match e {
        Expr::Nil(_)
        | Expr::Bool(..)
        | Expr::Int(..)
        | Expr::Str(..)
        | Expr::Function(..)
        | Expr::Name(..)
        | Expr::Field(..)
        | Expr::Index(..)
        | Expr::Table(..) => Ok(1),
        Expr::Vararg(_) | Expr::Method(..) => Ok(2),
        Expr::Paren(_, inner) => exp_size(inner.get()),
        Expr::Call(_, callee, arguments) => {
            let operands = sum(exp_size(callee.get())?, all_size(arguments.as_slice())?)?;
            sum(operands, 2)
        }
        Expr::Unary(_, _, operand) => sum(exp_size(operand.get())?, 1),
        Expr::Binary(_, operator, left, right) => {
            let operands = sum(exp_size(left.get())?, exp_size(right.get())?)?;
            sum(operands, operator_size(*operator))
        }
        Expr::Mark(_, inner) => sum(exp_size(inner.get())?, 1),
    }
}

/// How many instructions a list of values becomes.
#[cycle(sizes_of_values)]
#[tactic(auto, using(crate::proofs::Lists::rest_more))]
pub fn all_size(all: &[Expr]) -> Result<u64, NoMemory>
    ensures { IfOk result (λ n. n ≡ exps_size (exps_of all.now)) }
{
    let mut total = 0;
    let mut open = false;
    for e in all {
        total = sum(total, exp_size(e)?)?;
        open = is_open(e);
    }
    if open { Ok(total) } else { sum(total, 1) }
}

/// How many instructions the clauses of an `if` become.
#[cycle(sizes_of_blocks)]
fn clauses_size(all: &[Clause]) -> Result<u64, NoMemory>
    ensures { IfOk result (λ n. n ≡ clauses_size_of (clauses_of all.now)) }
{
    let mut total = 0;
    for clause in all {
        let test = sum(exp_size(&clause.condition)?, 1)?;
        let whole = sum(sum(test, block_size(&clause.block)?)?, 1)?;
        total = sum(total, whole)?;
    }
    Ok(total)
}

/// How many instructions a block becomes.
#[cycle(sizes_of_blocks)]
pub fn block_size(block: &Block) -> Result<u64, NoMemory>
    ensures { IfOk result (λ n. n ≡ block_size_of (block_of block.now)) }
{
    let mut total = 0;
    for stat in block.stats.as_slice() {
        total = sum(total, stat_size(stat)?)?;
    }
    match &block.result {
        Some(result) => {
            let values = sum(all_size(result.values.as_slice())?, 1)?;
            sum(total, values)
        }
        None => Ok(total),
    }
}

#[cycle(sizes_of_blocks)]
fn stat_size(stat: &Stat) -> Result<u64, NoMemory>
    ensures { IfOk result (λ n. n ≡ stat_size_of (stat_of stat.now)) }
{
    match stat {
        Stat::Empty(_) | Stat::Method(..) | Stat::Interface(..) | Stat::Alias(..) => Ok(0),
        Stat::Break(_) => Ok(1),
        Stat::Assign(_, targets, values) => {
            let stores = sum(1, targets.len() as u64)?;
            let total = sum(all_size(values.as_slice())?, stores)?;
            Ok(total)
        }
        Stat::Call(_, call) => sum(exp_size(call)?, 1),
        Stat::Do(_, block) => block_size(block),
        Stat::While(_, condition, block) => {
            let inner = sum(block_size(block)?, exp_size(condition)?)?;
            sum(inner, 3)
        }
        Stat::Repeat(_, block, condition) => {
            let inner = sum(block_size(block)?, exp_size(condition)?)?;
            sum(inner, 2)
        }
        Stat::If(_, clauses, otherwise) => {
            let total = clauses_size(clauses.as_slice())?;
            match otherwise {
                Some(block) => sum(total, block_size(block)?),
                None => Ok(total),
            }
        }
        Stat::NumericFor(_, _, first, limit, step, block) => {
            let bounds = sum(exp_size(first)?, exp_size(limit)?)?;
            let begun = match step {
                Some(step) => sum(bounds, sum(exp_size(step)?, 1)?)?,
                None => sum(bounds, 1)?,
            };
            let inner = sum(begun, block_size(block)?)?;
            sum(inner, 11)
        }
        Stat::GenericFor(_, names, values, block) => {
            let slots = sum(names.len() as u64, names.len() as u64)?;
            let begun = sum(all_size(values.as_slice())?, slots)?;
            let inner = sum(begun, block_size(block)?)?;
            sum(inner, 20)
        }
        Stat::Function(_, _, function) => sum(exp_size(function)?, 1),
        Stat::LocalFunction(_, _, function) => sum(exp_size(function)?, 4),
        Stat::Local(_, names, values) => {
            let slots = sum(names.len() as u64, names.len() as u64)?;
            let listed = sum(all_size(values.as_slice())?, 1)?;
            sum(listed, slots)
        }
    }
}
