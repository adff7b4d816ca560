use crate::{Typed, check_module, expression, flow_into};
use lua_tree::{BinaryOperator, Block, Chunk, Expr, Scoped, Stat, Use};
use std::alloc::Global;
use std::test::Fail;
use tl_base::{Boxed, Bytes, CrossKind, Failure, List, ModuleKind, NoMemory, Pos, RefusalCode};
use tl_rules::Local;
use tl_types::Ty;

const PLACE: Pos = Pos {
    module: 0,
    line: 2,
    column: 7,
};

// `x + 1`, for a local of this type.
fn sum(alloc: Global, known: Ty, operator: BinaryOperator) -> Result<Typed, Failure> {
    let uses = [Use::Local(0)];
    let env = [Local::holding(Ty::Any, known)];
    let left = Expr::Name(PLACE, 0, Bytes::from_slice(alloc, b"x")?);
    let right = Expr::Int(PLACE, 1);
    let sum = Expr::Binary(
        PLACE,
        operator,
        Boxed::new(alloc, left)?,
        Boxed::new(alloc, right)?,
    );
    expression(alloc, &uses, &env, sum)
}

fn is_marked(typed: &Typed) -> bool {
    match &typed.tree {
        Expr::Binary(_, _, left, _) => matches!(left.get(), Expr::Mark(CrossKind::Operand, _)),
        _ => false,
    }
}

fn is_refused(answer: Result<Typed, Failure>, code: RefusalCode) -> bool {
    match answer {
        Err(Failure::Refused(refusal)) => refusal.code == code,
        _ => false,
    }
}

fn nil() -> Typed {
    Typed {
        ty: Ty::Nil,
        tree: Expr::Nil(PLACE),
    }
}

#[test]
fn operands_are_marked(rt: HostRuntime) {
    let alloc = rt.alloc();
    match sum(alloc, Ty::Nil, BinaryOperator::Add) {
        Ok(typed) => assert!(rt; is_marked(&typed) && matches!(typed.ty, Ty::Any)),
        Err(_) => assert!(rt; false),
    }
    assert!(rt; is_refused(sum(alloc, Ty::Nil, BinaryOperator::Divide), RefusalCode::X1));
}

#[test]
fn values_flow(rt: HostRuntime) {
    let alloc = rt.alloc();
    assert!(rt; matches!(flow_into(alloc, nil(), &Ty::Value), Ok(_)));
    assert!(rt; is_refused(flow_into(alloc, nil(), &Ty::Int), RefusalCode::F1));
}

// Why a module is refused whose one statement is this.
fn fault(alloc: Global, kind: ModuleKind, stat: Stat) -> Result<Option<RefusalCode>, NoMemory> {
    let mut stats = List::new(alloc);
    stats.push(stat)?;
    let scoped = Scoped {
        chunk: Chunk {
            module: 0,
            kind,
            body: Block {
                stats,
                result: None,
            },
        },
        uses: List::new(alloc),
        locals: List::new(alloc),
        required: List::new(alloc),
    };
    match check_module(alloc, scoped) {
        Err(Failure::Refused(refusal)) => Ok(Some(refusal.code)),
        Err(Failure::NoMemory) => Err(NoMemory),
        Ok(_) => Ok(None),
    }
}

#[test]
fn modules_are_typed(rt: HostRuntime) -> Result<(), Fail> {
    let alloc = rt.alloc();
    let typed = fault(alloc, ModuleKind::Typed, Stat::Break(PLACE))?;
    assert!(rt; typed == Some(RefusalCode::X1));
    let untyped = fault(alloc, ModuleKind::Untyped, Stat::Break(PLACE))?;
    assert!(rt; untyped == None);
    Ok(())
}
