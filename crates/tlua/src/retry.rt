ghost use Rattle.std.specs.Io.{ReadsAtMost, WritesAtMost};
ghost use Rattle.std.specs.Io.KnownBytes.{ReadConsumes, WriteAppends};

use std::io::{ErrorKind, Read, Write};
use std::rt::Files;
use std::{fs, io};

/// How often a call that was interrupted is tried again. An interruption after that is taken for a failure.
const TRIES_AGAIN: u8 = 100;

/// Reads once, again where the call was interrupted.
pub fn read_some<R: Read>(reader: &mut R, buf: &mut [u8]) -> io::Result<usize>
    ensures bound { ReadsAtMost result buf.new }
    ensures bytes { ReadConsumes (R.remaining reader.old) (R.remaining reader.new) result buf.new }
{
    'tries: for _ in 0..TRIES_AGAIN {
        match reader.read(buf) {
            Ok(count) => return Ok(count),
            Err(error) => {
                if error.kind() != ErrorKind::Interrupted {
                    return Err(error);
                }
            }
        }
    }
    reader.read(buf)
}

/// Writes once, again where the call was interrupted.
pub fn write_some<W: Write>(writer: &mut W, piece: &[u8]) -> io::Result<usize>
    ensures bound { WritesAtMost result piece.now }
    ensures bytes { WriteAppends (W.contents writer.old) (W.contents writer.new) result piece.now }
{
    'tries: for _ in 0..TRIES_AGAIN {
        match writer.write(piece) {
            Ok(count) => return Ok(count),
            Err(error) => {
                if error.kind() != ErrorKind::Interrupted {
                    return Err(error);
                }
            }
        }
    }
    writer.write(piece)
}

/// Opens a file to be read, again where the call was interrupted.
pub fn open_file<R: Files>(system: &R, name: &str) -> io::Result<R::File> {
    'tries: for _ in 0..TRIES_AGAIN {
        match fs::open(system, name) {
            Ok(file) => return Ok(file),
            Err(error) => {
                if error.kind() != ErrorKind::Interrupted {
                    return Err(error);
                }
            }
        }
    }
    fs::open(system, name)
}
