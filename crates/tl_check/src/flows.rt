ghost use Rattle.std.specs.Prelude.{◌≡◌, IfOk};
ghost use Rattle.lua_tree.specs.View.{exp_of};
ghost use Rattle.tl_rules.specs.Flow.{flow};
ghost use Rattle.tl_rules.specs.Orders.{order, plain_order, loose_order};
ghost use Rattle.tl_check.specs.Answers.{Answers, flowed_view};

use crate::expressions::{Typed, refused};
use lua_tree::Expr;
use std::alloc::Global;
use subtyping::is_below;
use tl_base::{Boxed, CrossKind, Failure, List, NoMemory, RefusalCode};
use tl_types::{Interfaces, Ty};

/// Lets a value flow to a place of type `to`, marked where the flow is a crossing.
pub fn flow_into(alloc: Global, value: Typed, to: &Ty) -> Result<Typed, Failure>
    ensures { Answers flowed_view (flow plain_order loose_order value.ty to.now (exp_of value.tree)) result }
{
    if is_in_order(alloc, false, &value.ty, to)? {
        return Ok(value);
    }
    if is_in_order(alloc, true, &value.ty, to)? {
        return Ok(Typed {
            ty: to.copy(alloc)?,
            tree: Expr::Mark(CrossKind::Place, Boxed::new(alloc, value.tree)?),
        });
    }
    Err(refused(RefusalCode::F1, &value.tree))
}

// Whether a type is below another in plain subtyping or, where `loose`, in consistent subtyping, without interfaces.
fn is_in_order(alloc: Global, loose: bool, a: &Ty, b: &Ty) -> Result<bool, NoMemory>
    ensures { IfOk result (λ yes. yes ≡ order loose a.now b.now) }
{
    let interfaces = Interfaces {
        bodies: List::new(alloc),
    };
    is_below(alloc, loose, &interfaces, a, b)
}
