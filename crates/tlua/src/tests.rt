ghost use Rattle.std.specs.Prelude.{◌≤◌, IfOk};

use crate::disk::DiskFiles;
use crate::reading::Reading;
use crate::writing::Writing;
use std::io::{ErrorKind, Read, Write};
use std::test::Fail;
use std::{env, fs, io, process};
use tl_edge::{Failed, Files, FilesError, Found, Sink, SinkError, Source};

/// A stream that is interrupted so many times, then moves one byte in a call, and none once it has moved them all.
#[derive(Drop)]
struct Slow {
    interruptions: u64,
    bytes: u64,
}

impl Slow {
    fn moves(&mut self, room: usize) -> io::Result<usize>
        ensures { IfOk result (λ n. n ≤ room) }
    {
        if self.interruptions > 0 {
            self.interruptions -= 1;
            return Err(io::Error::from(ErrorKind::Interrupted));
        }
        if self.bytes == 0 || room == 0 {
            return Ok(0);
        }
        self.bytes -= 1;
        Ok(1)
    }
}

impl Read for Slow {
    fn read(&mut self, buf: &mut [u8]) -> io::Result<usize> {
        let count = self.moves(buf.len())?;
        if count > 0 {
            buf[0] = b'x';
        }
        Ok(count)
    }
}

impl Write for Slow {
    fn write(&mut self, buf: &[u8]) -> io::Result<usize> {
        self.moves(buf.len())
    }

    fn flush(&mut self) -> io::Result<()> {
        Ok(())
    }
}

#[test]
fn interrupted_calls_are_tried_again(rt: HostRuntime) {
    for (interruptions, bytes, read, written) in [
        (0, 1, Ok(1), Ok(1)),
        (100, 1, Ok(1), Ok(1)),
        (101, 1, Err(Failed), Err(SinkError::Failed)),
        (0, 0, Ok(0), Err(SinkError::Failed)),
    ] {
        let mut input = Reading::new(Slow {
            interruptions,
            bytes,
        });
        assert_eq!(rt; input.read(&mut [0; 4]), read);
        assert_eq!(rt; input.faults(), u64::from(read.is_err()));
        let mut output = Writing::new(Slow {
            interruptions,
            bytes,
        });
        assert_eq!(rt; output.write(b"ab"), written);
        assert_eq!(rt; output.faults(), u64::from(written.is_err()));
    }
}

#[test]
fn files_are_read_whole(rt: HostRuntime) -> Result<(), Fail> {
    let alloc = rt.alloc();
    let folder = env::temp_dir(&rt)?;
    let number = process::id(rt.process());
    let path = format!(in alloc; "{}/tlua-{number}.lua", folder.display())?;
    let bytes = vec![in alloc; 7; 70000]?;
    fs::write(&rt, path.as_str(), bytes.as_slice())?;
    let mut files = DiskFiles::new(&rt);
    let mut out = Vec::new(alloc);
    for (name, limit, found) in [
        (path.as_str(), 70000, Ok(Found::Whole)),
        (path.as_str(), 69999, Ok(Found::TooLong)),
        ("/no/such/file", 9, Ok(Found::Missing)),
        ("/", 9, Err(FilesError::Failed)),
    ] {
        assert_eq!(rt; files.read(name, limit, &mut out), found);
        let whole = found == Ok(Found::Whole);
        assert!(rt; if whole { out == bytes } else { out.is_empty() });
        assert_eq!(rt; files.faults(), u64::from(found.is_err()));
    }
    fs::remove_file(&rt, path.as_str())?;
    Ok(())
}
