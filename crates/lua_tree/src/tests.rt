use super::*;
use std::test::Fail;
use tl_base::{Boxed, Bytes, CrossKind, List, ModuleKind, NoMemory, Pos};

fn at(column: u32) -> Pos {
    Pos {
        module: 0,
        line: 1,
        column,
    }
}

fn name(rt: &HostRuntime, text: &str) -> Result<Name, NoMemory> {
    Ok(Name {
        pos: at(2),
        text: Bytes::from_slice(rt.alloc(), text.as_bytes())?,
    })
}

fn boxed(rt: &HostRuntime, expr: Expr) -> Result<Boxed<Expr>, NoMemory> {
    Boxed::new(rt.alloc(), expr)
}

fn nil(rt: &HostRuntime) -> Result<Boxed<Expr>, NoMemory> {
    boxed(rt, Expr::Nil(at(1)))
}

// `(nil)`, of height 2
fn paren(rt: &HostRuntime) -> Result<Expr, NoMemory> {
    Ok(Expr::Paren(at(1), nil(rt)?))
}

fn list<T: Drop>(rt: &HostRuntime, item: T) -> Result<List<T>, NoMemory> {
    let mut items = List::new(rt.alloc());
    items.push(item)?;
    Ok(items)
}

fn empty_block(rt: &HostRuntime) -> Block {
    Block {
        stats: List::new(rt.alloc()),
        result: None,
    }
}

// A function whose body returns `((nil))`.
fn function(rt: &HostRuntime) -> Result<Expr, NoMemory> {
    let deep = Expr::Paren(at(7), boxed(rt, paren(rt)?)?);
    let values = list(rt, deep)?;
    let result = Some(Return { pos: at(6), values });
    let stats = List::new(rt.alloc());
    let body = Body {
        params: List::new(rt.alloc()),
        rest: Some(Rest {
            pos: at(5),
            ty: None,
        }),
        results: None,
        block: Block { stats, result },
    };
    Ok(Expr::Function(at(1), Boxed::new(rt.alloc(), body)?))
}

// Each form of expression, with its height.
fn expressions(rt: &HostRuntime) -> Result<Vec<(Expr, u32)>, Fail> {
    let text = Bytes::from_slice(rt.alloc(), b"s")?;
    let used = Bytes::from_slice(rt.alloc(), b"x")?;
    let mut entries = List::new(rt.alloc());
    entries.push(Entry::Item(Expr::Nil(at(2))))?;
    entries.push(Entry::Named(name(rt, "n")?, paren(rt)?))?;
    entries.push(Entry::Keyed(function(rt)?, Expr::Bool(at(9), true)))?;
    let mut forms = Vec::new(rt.alloc());
    for form in [
        (Expr::Nil(at(1)), 1),
        (Expr::Bool(at(1), true), 1),
        (Expr::Int(at(1), -1), 1),
        (Expr::Str(at(1), text), 1),
        (Expr::Vararg(at(1)), 1),
        (function(rt)?, 1),
        (Expr::Name(at(1), 0, used), 1),
        (paren(rt)?, 2),
        (
            Expr::Field(at(1), boxed(rt, paren(rt)?)?, name(rt, "f")?),
            3,
        ),
        (Expr::Index(at(1), nil(rt)?, boxed(rt, paren(rt)?)?), 3),
        (Expr::Index(at(1), boxed(rt, paren(rt)?)?, nil(rt)?), 3),
        (Expr::Call(at(1), nil(rt)?, list(rt, paren(rt)?)?), 3),
        (
            Expr::Call(at(1), boxed(rt, paren(rt)?)?, List::new(rt.alloc())),
            3,
        ),
        (
            Expr::Method(at(1), nil(rt)?, name(rt, "m")?, list(rt, function(rt)?)?),
            2,
        ),
        (Expr::Table(at(1), List::new(rt.alloc())), 1),
        (Expr::Table(at(1), entries), 3),
        (Expr::Unary(at(1), UnaryOperator::Not, nil(rt)?), 2),
        (
            Expr::Binary(at(1), BinaryOperator::Add, nil(rt)?, boxed(rt, paren(rt)?)?),
            3,
        ),
        (Expr::Mark(CrossKind::Place, boxed(rt, paren(rt)?)?), 3),
    ] {
        forms.push(form)?;
    }
    Ok(forms)
}

#[test]
fn heights_and_places_of_each_expression(rt: HostRuntime) -> Result<(), Fail> {
    for (expr, want) in expressions(&rt)? {
        assert_eq!(rt; height(&expr), want);
        assert_eq!(rt; expr.pos(), at(1));
    }
    Ok(())
}

#[test]
fn a_tree_of_each_statement(rt: HostRuntime) -> Result<(), Fail> {
    let alloc = rt.alloc();
    let call = Expr::Call(at(1), nil(&rt)?, List::new(alloc));
    let typed = Typed {
        name: name(&rt, "x")?,
        ty: Some(TypeExpr::Nil(at(4))),
    };
    let clause = Clause {
        condition: Expr::Nil(at(4)),
        block: empty_block(&rt),
    };
    let number = Expr::Int(at(9), 1);
    let mut stats = List::new(alloc);
    for stat in [
        Stat::Empty(at(1)),
        Stat::Assign(at(1), list(&rt, paren(&rt)?)?, list(&rt, paren(&rt)?)?),
        Stat::Call(at(1), call),
        Stat::Break(at(1)),
        Stat::Do(at(1), empty_block(&rt)),
        Stat::While(at(1), paren(&rt)?, empty_block(&rt)),
        Stat::Repeat(at(1), empty_block(&rt), paren(&rt)?),
        Stat::If(at(1), list(&rt, clause)?, Some(empty_block(&rt))),
        Stat::NumericFor(
            at(1),
            name(&rt, "i")?,
            paren(&rt)?,
            paren(&rt)?,
            Some(number),
            empty_block(&rt),
        ),
        Stat::GenericFor(
            at(1),
            list(&rt, name(&rt, "k")?)?,
            list(&rt, paren(&rt)?)?,
            empty_block(&rt),
        ),
        Stat::Function(at(1), paren(&rt)?, function(&rt)?),
        Stat::Method(at(1), paren(&rt)?, name(&rt, "m")?, function(&rt)?),
        Stat::LocalFunction(at(1), name(&rt, "f")?, function(&rt)?),
        Stat::Local(at(1), list(&rt, typed)?, List::new(alloc)),
        Stat::Interface(at(1), name(&rt, "I")?, fields(&rt)?),
        Stat::Alias(at(1), name(&rt, "T")?, every_type(&rt)?),
    ] {
        stats.push(stat)?;
    }
    let body = Block {
        stats,
        result: None,
    };
    let kind = ModuleKind::Typed;
    let chunk = Chunk {
        module: 0,
        kind,
        body,
    };
    assert_eq!(rt; chunk.body.stats.len(), 16);
    Ok(())
}

fn fields(rt: &HostRuntime) -> Result<List<TypeField>, Fail> {
    let field = TypeField {
        pos: at(2),
        is_const: true,
        name: name(rt, "f")?,
        ty: TypeExpr::Bool(at(3), false),
    };
    Ok(list(rt, field)?)
}

// A union with a member of each form.
fn every_type(rt: &HostRuntime) -> Result<TypeExpr, Fail> {
    let alloc = rt.alloc();
    let parts = list(rt, Bytes::from_slice(alloc, b"m")?)?;
    let tuple = TypeTuple {
        items: list(rt, TypeExpr::Nil(at(2)))?,
        tail: Some(Boxed::new(alloc, TypeExpr::Nil(at(3)))?),
    };
    let none = TypeTuple {
        items: List::new(alloc),
        tail: None,
    };
    let results = TypeResults {
        pos: at(5),
        tuples: list(rt, none)?,
    };
    let mut members = List::new(alloc);
    for member in [
        TypeExpr::Nil(at(1)),
        TypeExpr::Bool(at(1), true),
        TypeExpr::Int(at(1), -5),
        TypeExpr::Str(at(1), Bytes::from_slice(alloc, b"s")?),
        TypeExpr::Named(at(1), parts, Bytes::from_slice(alloc, b"T")?),
        TypeExpr::Paren(at(1), Boxed::new(alloc, TypeExpr::Nil(at(2)))?),
        TypeExpr::Array(at(1), Boxed::new(alloc, TypeExpr::Nil(at(2)))?),
        TypeExpr::Map(
            at(1),
            Boxed::new(alloc, TypeExpr::Nil(at(2)))?,
            Boxed::new(alloc, TypeExpr::Nil(at(3)))?,
        ),
        TypeExpr::Record(at(1), fields(rt)?),
        TypeExpr::Optional(at(1), Boxed::new(alloc, TypeExpr::Nil(at(1)))?),
        TypeExpr::Function(at(1), tuple, results),
    ] {
        members.push(member)?;
    }
    Ok(TypeExpr::Union(at(1), members))
}
