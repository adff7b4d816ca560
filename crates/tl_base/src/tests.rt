use crate::{Boxed, Bytes, CrossKind, List, RefusalCode, Turns};
use std::test::Fail;

#[test]
fn lists_and_boxes(rt: HostRuntime) -> Result<(), Fail> {
    let mut list = List::new(rt.alloc());
    assert!(rt; list.is_empty());
    for number in [3u8, 1, 2] {
        list.push(number)?;
    }
    assert_eq!(rt; list.len(), 3);
    assert_eq!(rt; list.get(1).copied(), Some(1));
    assert_eq!(rt; list.get(3).copied(), None);
    let again = List::from_vec(list.into_vec());
    assert_eq!(rt; again.as_slice(), [3, 1, 2].as_slice());
    let boxed = Boxed::new(rt.alloc(), 7u8)?;
    assert_eq!(rt; *boxed.get(), 7);
    assert_eq!(rt; boxed.into_inner(), 7);
    Ok(())
}

#[test]
fn texts(rt: HostRuntime) -> Result<(), Fail> {
    let mut text = Bytes::new(rt.alloc());
    assert!(rt; text.is_empty());
    text.push(0)?;
    text.extend(b"ab")?;
    assert_eq!(rt; text.len(), 3);
    assert_eq!(rt; text.get(2).copied(), Some(b'b'));
    let copy = Bytes::from_slice(rt.alloc(), text.as_slice())?;
    let again = Bytes::from_vec(copy.into_vec());
    assert_eq!(rt; again.as_slice(), b"\0ab".as_slice());
    Ok(())
}

#[test]
fn turns(rt: HostRuntime) {
    let mut turns = Turns { left: 2 };
    assert!(rt; turns.take());
    assert!(rt; turns.take());
    assert!(rt; !turns.take());
    assert_eq!(rt; turns.left, 0);
}

#[test]
fn names(rt: HostRuntime) {
    assert_eq!(rt; CrossKind::Place.name(), "place");
    assert_eq!(rt; CrossKind::Operand.name(), "operand");
    assert_eq!(rt; CrossKind::Equal.name(), "equal");
    assert_eq!(rt; CrossKind::Expose.name(), "expose");
    assert_eq!(rt; RefusalCode::X1.name(), "X1");
    assert_eq!(rt; RefusalCode::F14.name(), "F14");
}
