use crate::{
    Fit, Local, Ty, crossing_lists_are_unique, declared_for, integer_fit, is_ruled, operation_type,
    orders_are_decided, type_place, type_written, typing_adds_marks_alone,
};
use lua_tree::{BinaryOperator, TypeExpr};
use std::alloc::Global;
use tl_base::{Bytes, List, NoMemory, Pos};

const PLACE: Pos = Pos {
    module: 0,
    line: 2,
    column: 7,
};

fn named(alloc: Global, name: &[u8]) -> Result<TypeExpr, NoMemory> {
    Ok(TypeExpr::Named(PLACE, List::new(alloc), Bytes::from_slice(alloc, name)?))
}

fn written(alloc: Global, name: &[u8]) -> Result<Option<Ty>, NoMemory> {
    let written = named(alloc, name)?;
    type_written(alloc, &written)
}

#[test]
fn names_stand_for_types(rt: HostRuntime) {
    let alloc = rt.alloc();
    assert!(rt; matches!(written(alloc, b"boolean"), Ok(Some(Ty::Union(_)))));
    assert!(rt; matches!(written(alloc, b"integer"), Ok(Some(Ty::Int))));
    assert!(rt; matches!(written(alloc, b"string"), Ok(Some(Ty::Str))));
    assert!(rt; matches!(written(alloc, b"value"), Ok(Some(Ty::Value))));
    assert!(rt; matches!(written(alloc, b"any"), Ok(Some(Ty::Any))));
    assert!(rt; matches!(written(alloc, b"number"), Ok(None)));
    assert!(rt;
        matches!(
            type_written(alloc, &TypeExpr::Nil(PLACE)),
            Ok(Some(Ty::Nil))
        )
    );
    assert!(rt; matches!(type_written(alloc, &TypeExpr::Int(PLACE, 3)), Ok(None)));
    assert!(rt; type_place(&TypeExpr::Int(PLACE, 3)) == PLACE);
}

fn mixed_fit(alloc: Global) -> Result<Fit, NoMemory> {
    let mut members = List::new(alloc);
    members.push(Ty::Nil)?;
    members.push(Ty::Int)?;
    Ok(integer_fit(&Ty::Union(members)))
}

#[test]
fn types_fit_operands(rt: HostRuntime) {
    let alloc = rt.alloc();
    assert!(rt; integer_fit(&Ty::Any) == Fit::Unknown);
    assert!(rt; integer_fit(&Ty::Value) == Fit::Opaque);
    assert!(rt; integer_fit(&Ty::IntLit(3)) == Fit::All);
    assert!(rt; integer_fit(&Ty::Union(List::new(alloc))) == Fit::All);
    assert!(rt; integer_fit(&Ty::Nil) == Fit::No);
    assert!(rt; matches!(mixed_fit(alloc), Ok(Fit::Some)));
    assert!(rt; is_ruled(BinaryOperator::Multiply) && !is_ruled(BinaryOperator::Divide));
    assert!(rt; matches!(operation_type(&Ty::Int, &Ty::Any), Ty::Any));
    assert!(rt; matches!(operation_type(&Ty::Int, &Ty::IntLit(1)), Ty::Int));
}

#[test]
fn locals_know_their_values(rt: HostRuntime) {
    let alloc = rt.alloc();
    let local = Local::holding(Ty::Value, Ty::IntLit(1));
    assert!(rt; matches!(local.current, Ty::IntLit(1)));
    let local = Local::holding(Ty::Any, Ty::IntLit(1));
    assert!(rt; matches!(local.current, Ty::Any));
    assert!(rt; matches!(declared_for(alloc, &Ty::Nil), Ok(Ty::Any)));
    assert!(rt;
        matches!(
            declared_for(alloc, &Ty::Union(List::new(alloc))),
            Ok(Ty::Any)
        )
    );
    assert!(rt; matches!(declared_for(alloc, &Ty::True), Ok(Ty::Union(_))));
    assert!(rt; matches!(declared_for(alloc, &Ty::IntLit(3)), Ok(Ty::Int)));
    crossing_lists_are_unique();
    orders_are_decided();
    typing_adds_marks_alone();
}
