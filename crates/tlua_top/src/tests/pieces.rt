ghost use Rattle.std.specs.Prelude.{None};

use crate::tests::calls::{one_file, owned};
use crate::{Status, tlua};
use std::alloc::Global;
use std::process::Abort;
use std::test::Fail;
use tl_base::Bytes;
use tl_edge::{Sink, SinkError, SureFiles, SureSource};

/// An output that tells nothing of its bytes, takes one byte in a call, and fails at each call once it is full.
#[derive(Drop)]
struct OneByOne {
    held: Bytes,
    room: usize,
    faults: u64,
}

impl OneByOne {
    fn new(alloc: Global, room: usize) -> OneByOne {
        OneByOne {
            held: Bytes::new(alloc),
            room,
            faults: 0,
        }
    }
}

impl Sink for OneByOne {
    ghost written = { λ _. None };

    ghost faults = { λ sink. sink.faults };

    fn write(&mut self, piece: &[u8]) -> Result<usize, SinkError> {
        if piece.is_empty() {
            return Ok(0);
        }
        if self.held.len() >= self.room {
            self.faults = self.faults.saturating_add(1);
            return Err(SinkError::Failed);
        }
        self.held.push(piece[0])?;
        Ok(1)
    }

    fn faults(&self) -> u64 {
        self.faults
    }
}

/// The first bytes of a text, no more than there is room for.
fn front(text: &str, room: usize) -> &[u8] {
    text.as_bytes().get(..room).unwrap_or(text.as_bytes())
}

/// A call whose output and report have room for so many bytes, and what they hold afterwards.
fn check_room<R: Abort>(
    rt: &R,
    alloc: Global,
    room: (usize, usize),
    status: Status,
    printed: &[u8],
    told: &[u8],
) -> Result<(), Fail> {
    let words = owned(alloc, &["run", "m.tl"])?;
    let text = b"local a: any = \"s\" print(a) print(a, 2 * 3) print(a + 1)";
    let mut files = SureFiles::new(alloc, one_file(alloc, "m.tl", text)?)?;
    let mut input = SureSource::new(alloc, Bytes::new(alloc))?;
    let mut output = OneByOne::new(alloc, room.0);
    let mut report = OneByOne::new(alloc, room.1);
    let result = tlua(
        alloc,
        &words,
        &mut files,
        &mut input,
        &mut output,
        &mut report,
    );
    assert_eq!(rt; result, status);
    assert_eq!(rt; output.held.as_slice(), printed);
    assert_eq!(rt; report.held.as_slice(), told);
    assert_eq!(rt;
        output.faults.saturating_add(report.faults),
        u64::from(status == Status::WriteFault)
    );
    Ok(())
}

#[test]
fn bytes_are_taken_one_by_one(rt: HostRuntime) -> Result<(), Fail> {
    let alloc = rt.alloc();
    let printed = "s\ns\t6\n";
    let ahead = "crossing m.tl:1:51 operand\n";
    let all =
        "crossing m.tl:1:51 operand\nkind m.tl:1:51 after m.tl:1:51 operand\nerror 1 m.tl:1:51: arithmetic on a string\n";
    check_room(
        &rt,
        alloc,
        (printed.len(), all.len()),
        Status::LuaError,
        printed.as_bytes(),
        all.as_bytes(),
    )?;
    for room in 0..printed.len() {
        check_room(
            &rt,
            alloc,
            (room, 1000),
            Status::WriteFault,
            front(printed, room),
            ahead.as_bytes(),
        )?;
    }
    for room in 0..ahead.len() {
        check_room(
            &rt,
            alloc,
            (1000, room),
            Status::WriteFault,
            b"",
            front(ahead, room),
        )?;
    }
    for room in ahead.len()..all.len() {
        check_room(
            &rt,
            alloc,
            (1000, room),
            Status::WriteFault,
            printed.as_bytes(),
            front(all, room),
        )?;
    }
    Ok(())
}
