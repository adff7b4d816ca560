//! Straight-line modules: prints, declarations of one local and assignments of one, of integer arithmetic.

ghost use Rattle.std.specs.Prelude.{◌≡◌, ◌^◌, ◌-◌, min, slice_get};
ghost use Rattle.lua_tree.specs.View.{exp_of, exps_of, targets_of, stat_of, block_of};
ghost use Rattle.built_forms.specs.Forms as forms;

use lua_tree::{BinaryOperator, Block, Expr, LibName, Stat, TypeExpr, Typed, Use};

// The most atoms that one value may have.
const MOST_ATOMS: u32 = 200;

fn is_local(uses: &[Use], number: u32) -> bool
    ensures { result ≡ forms.means_local (slice_get uses.now number) }
{
    matches!(uses.get(number as usize), Some(Use::Local(_)))
}

fn is_print(uses: &[Use], number: u32) -> bool
    ensures { result ≡ forms.means_print (slice_get uses.now number) }
{
    matches!(uses.get(number as usize), Some(Use::Lib(LibName::Print)))
}

fn joins_atoms(operator: BinaryOperator) -> bool
    ensures { result ≡ forms.joins_atoms operator }
{
    matches!(
        operator,
        BinaryOperator::Add | BinaryOperator::Subtract | BinaryOperator::Multiply
    )
}

fn is_chain(uses: &[Use], e: &Expr) -> bool
    ensures { result ≡ forms.is_chain uses.now (exp_of e.now) }
{
    match e {
        Expr::Nil(_) | Expr::Bool(..) | Expr::Int(..) | Expr::Str(..) => true,
        Expr::Name(_, number, _) => is_local(uses, *number),
        Expr::Binary(_, operator, left, right) => {
            joins_atoms(*operator) && is_chain(uses, left.get()) && is_chain(uses, right.get())
        }
        Expr::Vararg(_)
        | Expr::Function(..)
        | Expr::Paren(..)
        | Expr::Field(..)
        | Expr::Index(..)
        | Expr::Call(..)
        | Expr::Method(..)
        | Expr::Table(..)
        | Expr::Unary(..)
        | Expr::Mark(..) => false,
    }
}

// It stands still at 4294967295.
fn atom_count(e: &Expr) -> u32
    ensures { result ≡ min (forms.atom_count (exp_of e.now)) (2 ^ 32 - 1) }
{
    match e {
        Expr::Binary(_, _, left, right) => {
            atom_count(left.get()).saturating_add(atom_count(right.get()))
        }
        Expr::Nil(_)
        | Expr::Bool(..)
        | Expr::Int(..)
        | Expr::Str(..)
        | Expr::Name(..)
        | Expr::Vararg(_)
        | Expr::Function(..)
        | Expr::Paren(..)
        | Expr::Field(..)
        | Expr::Index(..)
        | Expr::Call(..)
        | Expr::Method(..)
        | Expr::Table(..)
        | Expr::Unary(..)
        | Expr::Mark(..) => 1,
    }
}

fn is_value(uses: &[Use], e: &Expr) -> bool
    ensures { result ≡ forms.is_straight_value uses.now (exp_of e.now) }
{
    is_chain(uses, e) && atom_count(e) <= MOST_ATOMS
}

fn are_values(uses: &[Use], values: &[Expr]) -> bool
    ensures { result ≡ forms.are_straight_values uses.now (exps_of values.now) }
{
    for e in values {
        if !is_value(uses, e) {
            return false;
        }
    }
    true
}

fn is_one_value(uses: &[Use], values: &[Expr]) -> bool
    ensures { result ≡ forms.is_one_value uses.now (exps_of values.now) }
{
    match values {
        [value] => is_value(uses, value),
        _ => false,
    }
}

// One value or more.
fn are_arguments(uses: &[Use], values: &[Expr]) -> bool
    ensures { result ≡ forms.are_arguments uses.now (exps_of values.now) }
{
    match values {
        [] => false,
        _ => are_values(uses, values),
    }
}

fn is_print_name(uses: &[Use], e: &Expr) -> bool
    ensures { result ≡ forms.is_print_name uses.now (exp_of e.now) }
{
    match e {
        Expr::Name(_, number, _) => is_print(uses, *number),
        _ => false,
    }
}

fn is_local_name(uses: &[Use], e: &Expr) -> bool
    ensures { result ≡ forms.is_local_name uses.now (exp_of e.now) }
{
    match e {
        Expr::Name(_, number, _) => is_local(uses, *number),
        _ => false,
    }
}

fn is_one_local(uses: &[Use], targets: &[Expr]) -> bool
    ensures { result ≡ forms.is_one_local uses.now (targets_of targets.now) }
{
    match targets {
        [target] => is_local_name(uses, target),
        _ => false,
    }
}

fn is_print_call(uses: &[Use], e: &Expr) -> bool
    ensures { result ≡ forms.is_print_call uses.now (exp_of e.now) }
{
    match e {
        Expr::Call(_, callee, arguments) => {
            is_print_name(uses, callee.get()) && are_arguments(uses, arguments.as_slice())
        }
        _ => false,
    }
}

fn is_built_type(written: &TypeExpr) -> bool
    ensures { result ≡ forms.is_built_type written.now }
{
    match written {
        TypeExpr::Nil(_) => true,
        TypeExpr::Named(_, module, name) => module.is_empty() && is_type_name(name.as_slice()),
        _ => false,
    }
}

fn is_type_name(name: &[u8]) -> bool
    ensures { result ≡ forms.is_type_name name.now }
{
    name == b"boolean".as_slice()
        || name == b"integer".as_slice()
        || name == b"string".as_slice()
        || name == b"value".as_slice()
        || name == b"any".as_slice()
}

fn is_built_local(local: &Typed) -> bool
    ensures { result ≡ forms.is_built_local local.now }
{
    if local.name.text.as_slice() == b"print".as_slice() {
        return false;
    }
    match &local.ty {
        Some(written) => is_built_type(written),
        None => true,
    }
}

fn is_straight_stat(uses: &[Use], stat: &Stat) -> bool
    ensures { result ≡ forms.is_straight_stat uses.now (stat_of stat.now) }
{
    match stat {
        Stat::Call(_, call) => is_print_call(uses, call),
        Stat::Local(_, names, values) => match names.as_slice() {
            [name] => is_built_local(name) && is_one_value(uses, values.as_slice()),
            _ => false,
        },
        Stat::Assign(_, targets, values) => {
            is_one_local(uses, targets.as_slice()) && is_one_value(uses, values.as_slice())
        }
        Stat::Empty(_)
        | Stat::Break(_)
        | Stat::Do(..)
        | Stat::While(..)
        | Stat::Repeat(..)
        | Stat::If(..)
        | Stat::NumericFor(..)
        | Stat::GenericFor(..)
        | Stat::Function(..)
        | Stat::Method(..)
        | Stat::LocalFunction(..)
        | Stat::Interface(..)
        | Stat::Alias(..) => false,
    }
}

/// Whether a block has such statements alone, and no `return`.
pub fn is_straight(uses: &[Use], block: &Block) -> bool
    ensures { result ≡ forms.is_straight uses.now (block_of block.now) }
{
    for stat in block.stats.as_slice() {
        if !is_straight_stat(uses, stat) {
            return false;
        }
    }
    block.result.is_none()
}
