use crate::is_built;
use lua_tree::{Block, Chunk, Expr, LibName, Scoped, Stat, Use};
use std::alloc::Global;
use tl_base::{Boxed, Bytes, List, ModuleKind, NoMemory, Pos};

const PLACE: Pos = Pos {
    module: 0,
    line: 2,
    column: 7,
};

fn printed(alloc: Global, is_table: bool) -> Expr {
    if is_table {
        Expr::Table(PLACE, List::new(alloc))
    } else {
        Expr::Int(PLACE, 3)
    }
}

// `print(3)` or `print({})`
fn print(alloc: Global, is_table: bool) -> Result<Stat, NoMemory> {
    let mut arguments = List::new(alloc);
    arguments.push(printed(alloc, is_table))?;
    let name = Expr::Name(PLACE, 0, Bytes::from_slice(alloc, b"print")?);
    let name = Boxed::new(alloc, name)?;
    Ok(Stat::Call(PLACE, Expr::Call(PLACE, name, arguments)))
}

fn body(alloc: Global, is_table: bool) -> Result<Block, NoMemory> {
    let mut stats = List::new(alloc);
    stats.push(print(alloc, is_table)?)?;
    Ok(Block {
        stats,
        result: None,
    })
}

fn is_print_built(alloc: Global, kind: ModuleKind, is_table: bool) -> Result<bool, NoMemory> {
    let mut uses = List::new(alloc);
    uses.push(Use::Lib(LibName::Print))?;
    let chunk = Chunk {
        module: 0,
        kind,
        body: body(alloc, is_table)?,
    };
    Ok(is_built(&Scoped {
        chunk,
        uses,
        locals: List::new(alloc),
        required: List::new(alloc),
    }))
}

#[test]
fn tables_are_not_printed(rt: HostRuntime) {
    let alloc = rt.alloc();
    assert!(rt; is_print_built(alloc, ModuleKind::Typed, false) == Ok(true));
    assert!(rt; is_print_built(alloc, ModuleKind::Typed, true) == Ok(false));
    assert!(rt; is_print_built(alloc, ModuleKind::Untyped, false) == Ok(true));
    assert!(rt; is_print_built(alloc, ModuleKind::Untyped, true) == Ok(false));
}
