ghost use Rattle.std.specs.Prelude.{◌≡◌, ◌∷◌, ◌++◌, [], List as Seq, IfOk, OnOk, slice_set};
ghost use Rattle.lua_tree.specs.declared.scoped.Use.{Use as Means};
ghost use Rattle.std.specs.List.{slice_get};
ghost use Rattle.lua_tree.specs.Tree.{declare as declaration, assign as assignment};
ghost use Rattle.lua_tree.specs.View.{exp_of, exps_of, targets_of};
ghost use Rattle.tl_rules.specs.Annotations.{annotation};
ghost use Rattle.tl_rules.specs.Locals.{number_of};
ghost use Rattle.tl_rules.specs.Orders.{plain_order, loose_order};
ghost use Rattle.tl_rules.specs.Statements.{one_value, one_local, one_target, target_local, check_value, begun, check_local, store_by, check_store, check_stat};
ghost use Rattle.tl_check.specs.Answers.{Answers, typed_view, stat_view, begun_view, declared_in, gives_many, only};

use crate::expressions::{Typed as TypedExpr, expression, refused, refused_at};
use crate::flows::flow_into;
use lua_tree::{Expr, Stat, TypeExpr, Typed, Use};
use std::alloc::Global;
use tl_base::{Failure, List, NoMemory, Pos, RefusalCode};
use tl_rules::{Local, declared_for, type_place, type_written};
use tl_types::{Ty, TyError};

/// A local that begins, and the marked tree of its value.
#[derive(Drop)]
pub(crate) struct Begun {
    pub(crate) local: Local,
    pub(crate) tree: Expr,
}

/// A list of one element.
fn one<T: Drop>(alloc: Global, item: T) -> Result<List<T>, NoMemory>
    ensures { IfOk result (λ items. items ≡ item ∷ []) }
{
    let mut items = List::new(alloc);
    items.push(item)?;
    Ok(items)
}

/// Whether a list that ends with this expression ends with all its values.
fn gives_many(expr: &Expr) -> bool
    ensures { result ≡ gives_many (exp_of expr.now) }
{
    match expr {
        Expr::Call(_, _, _) => true,
        Expr::Method(_, _, _, _) => true,
        Expr::Vararg(_) => true,
        Expr::Mark(_, inner) => gives_many(inner.get()),
        _ => false,
    }
}

/// The element of a list that has no other.
fn only<T: Drop>(items: List<T>) -> Option<T>
    ensures { result ≡ only items }
{
    let mut items = items.into_vec();
    let last = items.pop();
    if items.is_empty() { last } else { None }
}

/// The one value of a statement.
fn one_value(pos: Pos, values: List<Expr>) -> Result<Expr, Failure>
    ensures { Answers exp_of (one_value pos (exps_of values)) result }
{
    match only(values) {
        Some(value) => {
            if gives_many(&value) {
                Err(refused(RefusalCode::X1, &value))
            } else {
                Ok(value)
            }
        }
        None => Err(refused_at(RefusalCode::X1, pos)),
    }
}

/// The one local of a statement.
fn one_local(pos: Pos, names: List<Typed>) -> Result<Typed, Failure>
    ensures { Answers (λ n. n) (one_local pos names) result }
{
    match only(names) {
        Some(name) => Ok(name),
        None => Err(refused_at(RefusalCode::X1, pos)),
    }
}

/// The one target of a statement.
fn one_target(pos: Pos, targets: List<Expr>) -> Result<Expr, Failure>
    ensures { Answers exp_of (one_target pos (targets_of targets)) result }
{
    match only(targets) {
        Some(target) => Ok(target),
        None => Err(refused_at(RefusalCode::X1, pos)),
    }
}

/// The type that a local is declared with, if one is written.
fn annotated(alloc: Global, written: &Option<TypeExpr>) -> Result<Option<Ty>, Failure>
    ensures { Answers (λ t. t) (annotation written.now) result }
{
    match written {
        None => Ok(None),
        Some(written) => match type_written(alloc, written)? {
            Some(ty) => Ok(Some(ty)),
            None => Err(refused_at(RefusalCode::X1, type_place(written))),
        },
    }
}

/// An expression whose value flows to a place of type `to`.
pub(crate) fn value(
    alloc: Global,
    uses: &[Use],
    env: &[Local],
    to: &Ty,
    expr: Expr,
) -> Result<TypedExpr, Failure>
    ensures { Answers (typed_view env.now) (check_value uses.now plain_order loose_order env.now to.now (exp_of expr)) result }
{
    let typed = expression(alloc, uses, env, expr)?;
    flow_into(alloc, typed, to)
}

/// A local that begins with this value, which flows to the type that is written, if one is.
fn begin(
    alloc: Global,
    uses: &[Use],
    env: &[Local],
    declared: Option<Ty>,
    expr: Expr,
) -> Result<Begun, Failure>
    ensures { Answers (begun_view env.now) (begun uses.now plain_order loose_order declared env.now (exp_of expr)) result }
{
    match declared {
        Some(to) => {
            let typed = value(alloc, uses, env, &to, expr)?;
            Ok(Begun {
                local: Local::holding(to, typed.ty),
                tree: typed.tree,
            })
        }
        None => {
            let typed = expression(alloc, uses, env, expr)?;
            let declared = match declared_for(alloc, &typed.ty) {
                Ok(ty) => ty,
                Err(TyError::TooLarge) => return Err(refused(RefusalCode::X1, &typed.tree)),
                Err(TyError::NoMemory) => return Err(Failure::NoMemory),
            };
            Ok(Begun {
                local: Local::holding(declared, typed.ty),
                tree: typed.tree,
            })
        }
    }
}

/// A statement that declares.
pub(crate) fn local(
    alloc: Global,
    uses: &[Use],
    env: &mut Vec<Local>,
    pos: Pos,
    names: List<Typed>,
    values: List<Expr>,
) -> Result<Stat, Failure>
    ensures { Answers (stat_view env.new.items) (check_stat uses.now plain_order loose_order env.old.items (declaration pos names (exps_of values))) result }
{
    let name = one_local(pos, names)?;
    declare(alloc, uses, env, pos, name, values)
}

/// The next local begins.
fn declare(
    alloc: Global,
    uses: &[Use],
    env: &mut Vec<Local>,
    pos: Pos,
    name: Typed,
    values: List<Expr>,
) -> Result<Stat, Failure>
    ensures { Answers (stat_view env.new.items) (check_local uses.now plain_order loose_order env.old.items pos name (exps_of values)) result }
{
    let declared = annotated(alloc, &name.ty)?;
    let expr = one_value(pos, values)?;
    let Begun { local, tree } = begin(alloc, uses, env.as_slice(), declared, expr)?;
    bind(env, local)?;
    let names = one(alloc, name)?;
    let values = one(alloc, tree)?;
    Ok(Stat::Local(pos, names, values))
}

/// Puts the next local at the end.
fn bind(env: &mut Vec<Local>, local: Local) -> Result<(), NoMemory>
    ensures { OnOk result (env.new.items ≡ env.old.items ++ local ∷ []) }
{
    env.push(local)?;
    Ok(())
}

/// The local that a use means.
fn local_number(uses: &[Use], number: u32) -> Option<u32>
    ensures { result ≡ number_of (slice_get uses.now number) }
{
    match uses.get(number as usize) {
        Some(Use::Local(local)) => Some(*local),
        _ => None,
    }
}

/// The number of the local into which a statement stores.
fn local_of_target(uses: &[Use], target: &Expr) -> Result<u32, Failure>
    ensures { Answers (λ x. x) (target_local uses.now (exp_of target.now)) result }
{
    match target {
        Expr::Name(pos, number, _) => match local_number(uses, *number) {
            Some(local) => Ok(local),
            None => Err(refused_at(RefusalCode::X1, *pos)),
        },
        other => Err(refused(RefusalCode::X1, other)),
    }
}

/// A statement that stores.
pub(crate) fn assign(
    alloc: Global,
    uses: &[Use],
    env: &mut Vec<Local>,
    pos: Pos,
    targets: List<Expr>,
    values: List<Expr>,
) -> Result<Stat, Failure>
    ensures { Answers (stat_view env.new.items) (check_stat uses.now plain_order loose_order env.old.items (assignment pos (targets_of targets) (exps_of values))) result }
{
    let target = one_target(pos, targets)?;
    store(alloc, uses, env, pos, target, values)
}

/// A store into a local.
fn store(
    alloc: Global,
    uses: &[Use],
    env: &mut Vec<Local>,
    pos: Pos,
    target: Expr,
    values: List<Expr>,
) -> Result<Stat, Failure>
    ensures { Answers (stat_view env.new.items) (check_store uses.now plain_order loose_order env.old.items pos (exp_of target) (exps_of values)) result }
{
    let local = local_of_target(uses, &target)?;
    let expr = one_value(pos, values)?;
    let typed = expression(alloc, uses, env.as_slice(), expr)?;
    put(alloc, env, pos, local, target, typed)
}

/// The type that the local of this number is declared with.
fn declared_at(alloc: Global, env: &[Local], local: u32) -> Result<Option<Ty>, NoMemory>
    ensures { IfOk result (λ t. t ≡ declared_in (slice_get env.now local)) }
{
    match env.get(local as usize) {
        Some(known) => Ok(Some(known.declared.copy(alloc)?)),
        None => Ok(None),
    }
}

/// Exchanges what is known of the local of this number.
fn replace(env: &mut Vec<Local>, local: u32, known: Local)
    ensures { env.new.items ≡ slice_set env.old.items local known }
{
    if (local as usize) < env.len() {
        env[local as usize] = known;
    }
}

/// Puts a value into the local of this number.
fn put(
    alloc: Global,
    env: &mut Vec<Local>,
    pos: Pos,
    local: u32,
    target: Expr,
    typed: TypedExpr,
) -> Result<Stat, Failure>
    ensures { (uses : Seq Means) → Answers (stat_view env.new.items) (store_by uses plain_order loose_order (slice_get env.old.items local) local pos (exp_of target) (typed_view env.old.items typed)) result }
{
    match declared_at(alloc, env.as_slice(), local)? {
        Some(declared) => {
            let TypedExpr { ty, tree } = flow_into(alloc, typed, &declared)?;
            replace(env, local, Local::holding(declared, ty));
            let targets = one(alloc, target)?;
            let values = one(alloc, tree)?;
            Ok(Stat::Assign(pos, targets, values))
        }
        None => Err(refused_at(RefusalCode::X1, pos)),
    }
}
