use crate::crossing_list;
use lua_tree::{Block, Expr, Return};
use std::alloc::Global;
use tl_base::{Boxed, CrossKind, Crossing, List, NoMemory, Pos};

const PLACE: Pos = Pos {
    module: 0,
    line: 2,
    column: 7,
};

// `...`, marked.
fn marked(alloc: Global, kind: CrossKind) -> Result<Expr, NoMemory> {
    Ok(Expr::Mark(kind, Boxed::new(alloc, Expr::Vararg(PLACE))?))
}

// Of a `return` of two marked values at one place.
fn listed(alloc: Global, first: CrossKind, second: CrossKind) -> Result<List<Crossing>, NoMemory> {
    let mut values = List::new(alloc);
    values.push(marked(alloc, first)?)?;
    values.push(marked(alloc, second)?)?;
    let block = Block {
        stats: List::new(alloc),
        result: Some(Return { pos: PLACE, values }),
    };
    crossing_list(alloc, &block)
}

fn count(alloc: Global, first: CrossKind, second: CrossKind) -> Result<usize, NoMemory> {
    Ok(listed(alloc, first, second)?.len())
}

fn least(alloc: Global, first: CrossKind, second: CrossKind) -> Result<Option<Crossing>, NoMemory> {
    Ok(listed(alloc, first, second)?.get(0).copied())
}

#[test]
fn lists_are_sorted_without_repeats(rt: HostRuntime) {
    let alloc = rt.alloc();
    let place = Crossing {
        pos: PLACE,
        kind: CrossKind::Place,
    };
    assert!(rt; count(alloc, CrossKind::Equal, CrossKind::Equal) == Ok(1));
    assert!(rt; count(alloc, CrossKind::Equal, CrossKind::Place) == Ok(2));
    assert!(rt; least(alloc, CrossKind::Equal, CrossKind::Place) == Ok(Some(place)));
}
