use crate::{
    Failed, FileBytes, Files, FilesError, Found, MemFiles, MemSink, MemSource, Sink, SinkError,
    Source, SureFiles, SureSink, SureSource,
};
use std::alloc::Global;
use std::process::Abort;
use std::test::Fail;
use tl_base::{Bytes, List, NoMemory};

fn numbers(alloc: Global, numbers: &[u64]) -> Result<List<u64>, NoMemory> {
    Ok(List::from_vec(Vec::from_slice(alloc, numbers)?))
}

fn entry(alloc: Global, name: &[u8], bytes: &[u8]) -> Result<FileBytes, NoMemory> {
    let name = Bytes::from_slice(alloc, name)?;
    let bytes = Bytes::from_slice(alloc, bytes)?;
    Ok(FileBytes { name, bytes })
}

/// Two files, one of them empty, and a second entry of each name, which doesn't count.
fn four_entries(alloc: Global) -> Result<List<FileBytes>, NoMemory> {
    let mut content = List::new(alloc);
    content.push(entry(alloc, b"a.lua", b"abc")?)?;
    content.push(entry(alloc, b"b.lua", b"")?)?;
    content.push(entry(alloc, b"a.lua", b"second")?)?;
    content.push(entry(alloc, b"b.lua", b"x")?)?;
    Ok(content)
}

/// A read over leftover bytes.
fn check_file<F: Files, R: Abort>(
    rt: &R,
    alloc: Global,
    files: &mut F,
    name: &str,
    limit: u64,
    found: Result<Found, FilesError>,
    bytes: &[u8],
) -> Result<(), Fail> {
    let mut out = Vec::from_slice(alloc, b"leftover")?;
    let result = files.read(name, limit, &mut out);
    assert_eq!(rt; result, found, "{name} of at most {limit}");
    assert_eq!(rt; out.as_slice(), bytes, "{name} of at most {limit}");
    Ok(())
}

#[test]
fn files_are_read_whole(rt: HostRuntime) -> Result<(), Fail> {
    let alloc = rt.alloc();
    let mut sure = SureFiles::new(alloc, four_entries(alloc)?)?;
    let mut mem = MemFiles::new(alloc, four_entries(alloc)?, numbers(alloc, &[])?)?;
    for (name, limit, found, bytes) in [
        ("a.lua", 3, Found::Whole, "abc"),
        ("a.lua", 2, Found::TooLong, ""),
        ("a.lua", 0, Found::TooLong, ""),
        ("a.lua", u64::MAX, Found::Whole, "abc"),
        ("b.lua", 0, Found::Whole, ""),
        ("a.lu", 9, Found::Missing, ""),
        ("", 9, Found::Missing, ""),
    ] {
        check_file(
            &rt,
            alloc,
            &mut sure,
            name,
            limit,
            Ok(found),
            bytes.as_bytes(),
        )?;
        check_file(
            &rt,
            alloc,
            &mut mem,
            name,
            limit,
            Ok(found),
            bytes.as_bytes(),
        )?;
    }
    assert_eq!(rt; sure.faults(), 0);
    assert_eq!(rt; mem.faults(), 0);
    Ok(())
}

#[test]
fn chosen_reads_of_files_fail(rt: HostRuntime) -> Result<(), Fail> {
    let alloc = rt.alloc();
    for failing in 1..=4 {
        let mut files = MemFiles::new(alloc, four_entries(alloc)?, numbers(alloc, &[9, failing])?)?;
        for (call, name, limit, found, bytes) in [
            (1, "a.lua", 3, Found::Whole, "abc"),
            (2, "a.lua", 2, Found::TooLong, ""),
            (3, "c.lua", 3, Found::Missing, ""),
        ] {
            if call == failing {
                check_file(
                    &rt,
                    alloc,
                    &mut files,
                    name,
                    limit,
                    Err(FilesError::Failed),
                    b"",
                )?;
            } else {
                check_file(
                    &rt,
                    alloc,
                    &mut files,
                    name,
                    limit,
                    Ok(found),
                    bytes.as_bytes(),
                )?;
            }
        }
        assert_eq!(rt; files.faults(), if failing < 4 { 1 } else { 0 });
    }
    Ok(())
}

/// Reads pieces of this much room, each after a read into an empty buffer.
fn check_pieces<S: Source, R: Abort>(
    rt: &R,
    source: &mut S,
    room: usize,
    pieces: &[Result<&[u8], Failed>],
) {
    for piece in pieces {
        let mut buf = *b"........";
        assert!(rt; room <= buf.len());
        assert_eq!(rt; source.read(&mut []), Ok(0));
        let result = source.read(&mut buf[..room]);
        match (result, piece) {
            (Ok(count), Ok(piece)) => {
                assert!(rt; count <= room);
                assert_eq!(rt; &buf[..count], *piece, "of room for {room}");
                assert!(rt; buf[count..].iter().all(|byte| *byte == b'.'));
            }
            (Err(Failed), Err(Failed)) => {}
            (_, _) => assert!(rt; false, "of room for {room}"),
        }
    }
}

#[test]
fn a_source_gives_pieces(rt: HostRuntime) -> Result<(), Fail> {
    let alloc = rt.alloc();
    for (room, pieces) in [
        (1, [b"a".as_slice(), b"b", b"c", b"d", b"e", b""]),
        (2, [b"ab".as_slice(), b"cd", b"e", b"", b"", b""]),
        (3, [b"abc".as_slice(), b"de", b"", b"", b"", b""]),
        (5, [b"abcde".as_slice(), b"", b"", b"", b"", b""]),
        (8, [b"abcde".as_slice(), b"", b"", b"", b"", b""]),
    ] {
        let pieces = pieces.map(Ok);
        let mut sure = SureSource::new(alloc, Bytes::from_slice(alloc, b"abcde")?)?;
        check_pieces(&rt, &mut sure, room, &pieces);
        assert_eq!(rt; sure.faults(), 0);
        let mut mem = MemSource::new(
            alloc,
            Bytes::from_slice(alloc, b"abcde")?,
            numbers(alloc, &[7])?,
        )?;
        check_pieces(&rt, &mut mem, room, &pieces);
        assert_eq!(rt; mem.faults(), 0);
    }
    Ok(())
}

#[test]
fn chosen_reads_of_a_source_fail(rt: HostRuntime) -> Result<(), Fail> {
    let alloc = rt.alloc();
    let (ab, c, end, fails) = (
        Ok(b"ab".as_slice()),
        Ok(b"c".as_slice()),
        Ok(b"".as_slice()),
        Err(Failed),
    );
    for (failing, faults, pieces) in [
        ([1, 1], 1, [fails, ab, c, end]),
        ([2, 9], 1, [ab, fails, c, end]),
        ([3, 9], 1, [ab, c, fails, end]),
        ([9, 4], 1, [ab, c, end, fails]),
        ([3, 2], 2, [ab, fails, fails, c]),
        ([0, 5], 0, [ab, c, end, end]),
    ] {
        let mut source = MemSource::new(
            alloc,
            Bytes::from_slice(alloc, b"abc")?,
            numbers(alloc, &failing)?,
        )?;
        check_pieces(&rt, &mut source, 2, &pieces);
        assert_eq!(rt; source.faults(), faults);
    }
    Ok(())
}

/// Writes three pieces, each after an empty one.
fn check_writes<S: Sink, R: Abort>(rt: &R, sink: &mut S, results: [Result<usize, SinkError>; 3]) {
    let pieces = [b"a".as_slice(), b"bcd", b"ef"];
    for (piece, result) in pieces.iter().zip(results.iter()) {
        assert_eq!(rt; sink.write(&[]), Ok(0));
        assert_eq!(rt; sink.write(piece), *result);
    }
}

#[test]
fn a_sink_takes_pieces(rt: HostRuntime) -> Result<(), Fail> {
    let mut sink = SureSink::new(rt.alloc())?;
    assert_eq!(rt; sink.bytes(), b"".as_slice());
    check_writes(&rt, &mut sink, [Ok(1), Ok(3), Ok(2)]);
    assert_eq!(rt; sink.bytes(), b"abcdef".as_slice());
    assert_eq!(rt; sink.faults(), 0);
    Ok(())
}

#[test]
fn chosen_writes_fail(rt: HostRuntime) -> Result<(), Fail> {
    let alloc = rt.alloc();
    let fails = Err(SinkError::Failed);
    for (failing, faults, results, bytes) in [
        ([1, 1], 1, [fails, Ok(3), Ok(2)], b"bcdef".as_slice()),
        ([2, 9], 1, [Ok(1), fails, Ok(2)], b"aef"),
        ([9, 3], 1, [Ok(1), Ok(3), fails], b"abcd"),
        ([3, 1], 2, [fails, Ok(3), fails], b"bcd"),
        ([0, 4], 0, [Ok(1), Ok(3), Ok(2)], b"abcdef"),
    ] {
        let mut sink = MemSink::new(alloc, numbers(alloc, &failing)?)?;
        check_writes(&rt, &mut sink, results);
        assert_eq!(rt; sink.bytes(), bytes);
        assert_eq!(rt; sink.faults(), faults);
    }
    Ok(())
}
