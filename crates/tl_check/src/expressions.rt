ghost use Rattle.std.specs.Prelude.{◌≡◌, List, option_copied};
ghost use Rattle.std.specs.List.{slice_get};
ghost use Rattle.lua_tree.specs.View.{exp_of};
ghost use Rattle.lua_tree.specs.Places.{place_of};
ghost use Rattle.tl_rules.specs.declared.local.Local.{Local};
ghost use Rattle.tl_rules.specs.Locals.{number_of, local_in};
ghost use Rattle.tl_rules.specs.Operands.{operand};
ghost use Rattle.tl_rules.specs.Expressions.{check_exp, named_by, operation};
ghost use Rattle.tl_check.specs.Answers.{Answers, typed_view};

use lua_tree::{BinaryOperator, Expr, Use};
use std::alloc::Global;
use tl_base::{Boxed, Bytes, CrossKind, Failure, Pos, Refusal, RefusalCode};
use tl_rules::{Fit, Local, integer_fit, is_ruled, operation_type};
use tl_types::{Text, Ty};

/// An expression's type and its marked tree; or what is known of a value where it flowed to, and its marked tree.
#[derive(Drop)]
pub struct Typed {
    pub ty: Ty,
    pub tree: Expr,
}

/// Types an expression and marks it.
pub fn expression(alloc: Global, uses: &[Use], env: &[Local], expr: Expr) -> Result<Typed, Failure>
    ensures { Answers (typed_view env.now) (check_exp uses.now env.now (exp_of expr)) result }
{
    match expr {
        Expr::Nil(pos) => Ok(Typed {
            ty: Ty::Nil,
            tree: Expr::Nil(pos),
        }),
        Expr::Bool(pos, truth) => Ok(Typed {
            ty: if truth { Ty::True } else { Ty::False },
            tree: Expr::Bool(pos, truth),
        }),
        Expr::Int(pos, number) => Ok(Typed {
            ty: Ty::IntLit(number),
            tree: Expr::Int(pos, number),
        }),
        Expr::Str(pos, text) => Ok(Typed {
            ty: Ty::StrLit(Text::from_slice(alloc, text.as_slice())?),
            tree: Expr::Str(pos, text),
        }),
        Expr::Name(pos, number, text) => name(alloc, uses, env, pos, number, text),
        Expr::Paren(pos, inner) => {
            let inner = expression(alloc, uses, env, inner.into_inner())?;
            Ok(Typed {
                ty: inner.ty,
                tree: Expr::Paren(pos, Boxed::new(alloc, inner.tree)?),
            })
        }
        Expr::Binary(pos, operator, left, right) => {
            if !is_ruled(operator) {
                return Err(refused_at(RefusalCode::X1, pos));
            }
            let left = expression(alloc, uses, env, left.into_inner())?;
            let right = expression(alloc, uses, env, right.into_inner())?;
            operation_of(alloc, pos, operator, left, right)
        }
        Expr::Mark(_, inner) => expression(alloc, uses, env, inner.into_inner()),
        other => Err(refused(RefusalCode::X1, &other)),
    }
}

// A use of a name.
fn name(
    alloc: Global,
    uses: &[Use],
    env: &[Local],
    pos: Pos,
    number: u32,
    text: Bytes,
) -> Result<Typed, Failure>
    ensures { Answers (typed_view env.now) (named_by (local_in env.now (number_of (slice_get uses.now number))) env.now pos number text) result }
{
    match local_of(uses, env, number) {
        Some(local) => Ok(Typed {
            ty: local.current.copy(alloc)?,
            tree: Expr::Name(pos, number, text),
        }),
        None => Err(refused_at(RefusalCode::X1, pos)),
    }
}

// What is known of the local that a use means.
fn local_of<'a>(uses: &[Use], env: &'a [Local], number: u32) -> Option<&'a Local>
    ensures { option_copied result ≡ local_in env.now (number_of (slice_get uses.now number)) }
{
    match uses.get(number as usize) {
        Some(Use::Local(local)) => env.get(*local as usize),
        _ => None,
    }
}

// An operation on integers, whose operands are typed.
fn operation_of(
    alloc: Global,
    pos: Pos,
    operator: BinaryOperator,
    left: Typed,
    right: Typed,
) -> Result<Typed, Failure>
    ensures { (env : List Local) → Answers (typed_view env) (operation pos operator (typed_view env left) (typed_view env right)) result }
{
    let Typed {
        ty: left_type,
        tree: left,
    } = left;
    let Typed {
        ty: right_type,
        tree: right,
    } = right;
    let left = operand_of(alloc, &left_type, left)?;
    let right = operand_of(alloc, &right_type, right)?;
    let ty = operation_type(&left_type, &right_type);
    let tree = Expr::Binary(
        pos,
        operator,
        Boxed::new(alloc, left)?,
        Boxed::new(alloc, right)?,
    );
    Ok(Typed { ty, tree })
}

// The operand of an operation on integers, marked where nothing is known of it.
fn operand_of(alloc: Global, ty: &Ty, expr: Expr) -> Result<Expr, Failure>
    ensures { Answers exp_of (operand ty.now (exp_of expr)) result }
{
    match integer_fit(ty) {
        Fit::Unknown => Ok(Expr::Mark(CrossKind::Operand, Boxed::new(alloc, expr)?)),
        Fit::Opaque => Err(refused(RefusalCode::F14, &expr)),
        Fit::All => Ok(expr),
        Fit::Some => Err(refused(RefusalCode::X1, &expr)),
        Fit::No => Err(refused(RefusalCode::F2, &expr)),
    }
}

/// A refusal at an expression.
pub fn refused(code: RefusalCode, expr: &Expr) -> Failure
    ensures { result ≡ Failure.Refused (record { code = code; pos = place_of (exp_of expr.now) }) }
{
    refused_at(code, expr.pos())
}

/// A refusal at a place.
pub fn refused_at(code: RefusalCode, pos: Pos) -> Failure
    ensures { result ≡ Failure.Refused (record { code = code; pos = pos }) }
{
    Failure::Refused(Refusal { code, pos })
}
