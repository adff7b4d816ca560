ghost use Rattle.std.specs.Prelude.{◌≡◌, ◌^◌, ◌-◌, min, max};
ghost use Rattle.lua_tree.specs.Height.{height, highest, highest_entry, entry_height};
ghost use Rattle.lua_tree.specs.Places.{place_of};
ghost use Rattle.lua_tree.specs.View.{exp_of, exps_of, entry_of, entries_of};

use crate::{Entry, Expr};
use std::cmp::max;
use tl_base::Pos;

impl Expr {
    /// The place of the first token.
    pub fn pos(&self) -> Pos
        ensures { result ≡ place_of (exp_of self.now) }
    {
        match self {
            Expr::Nil(pos)
            | Expr::Bool(pos, _)
            | Expr::Int(pos, _)
            | Expr::Str(pos, _)
            | Expr::Vararg(pos)
            | Expr::Function(pos, _)
            | Expr::Name(pos, ..)
            | Expr::Paren(pos, _)
            | Expr::Field(pos, ..)
            | Expr::Index(pos, ..)
            | Expr::Call(pos, ..)
            | Expr::Method(pos, ..)
            | Expr::Table(pos, _)
            | Expr::Unary(pos, ..)
            | Expr::Binary(pos, ..) => *pos,
            Expr::Mark(_, inner) => inner.get().pos(),
        }
    }
}

/// The height of an expression: 1 where no expression stands in it, and for a function; else one more than the highest directly in it,
/// parentheses and marks included. It stands still at 4294967295. Its calls nest as deep as the tree does.
#[cycle(height)]
pub fn height(expr: &Expr) -> u32
    ensures { result ≡ min (height (exp_of expr.now)) (2 ^ 32 - 1) }
{
    match expr {
        Expr::Nil(_)
        | Expr::Bool(..)
        | Expr::Int(..)
        | Expr::Str(..)
        | Expr::Vararg(_)
        | Expr::Name(..) => 1,
        Expr::Function(..) => 1,
        Expr::Paren(_, inner) => height(inner.get()).saturating_add(1),
        Expr::Field(_, inner, _) => height(inner.get()).saturating_add(1),
        Expr::Unary(_, _, inner) => height(inner.get()).saturating_add(1),
        Expr::Mark(_, inner) => height(inner.get()).saturating_add(1),
        Expr::Index(_, left, right) => {
            max(height(left.get()), height(right.get())).saturating_add(1)
        }
        Expr::Binary(_, _, left, right) => {
            max(height(left.get()), height(right.get())).saturating_add(1)
        }
        Expr::Call(_, callee, arguments) => {
            max(height(callee.get()), highest(arguments.as_slice())).saturating_add(1)
        }
        Expr::Method(_, object, _, arguments) => {
            max(height(object.get()), highest(arguments.as_slice())).saturating_add(1)
        }
        Expr::Table(_, entries) => highest_entry(entries.as_slice()).saturating_add(1),
    }
}

// The height of the highest of these, 0 where there is none.
#[cycle(height)]
fn highest(exprs: &[Expr]) -> u32
    ensures { result ≡ min (highest (exps_of exprs.now)) (2 ^ 32 - 1) }
{
    let mut most = 0;
    for expr in exprs {
        most = max(most, height(expr));
    }
    most
}

#[cycle(height)]
fn highest_entry(entries: &[Entry]) -> u32
    ensures { result ≡ min (highest_entry (entries_of entries.now)) (2 ^ 32 - 1) }
{
    let mut most = 0;
    for entry in entries {
        most = max(most, entry_height(entry));
    }
    most
}

#[cycle(height)]
fn entry_height(entry: &Entry) -> u32
    ensures { result ≡ min (entry_height (entry_of entry.now)) (2 ^ 32 - 1) }
{
    match entry {
        Entry::Keyed(key, value) => max(height(key), height(value)),
        Entry::Named(_, value) => height(value),
        Entry::Item(value) => height(value),
    }
}
