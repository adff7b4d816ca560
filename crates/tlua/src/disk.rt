ghost use Rattle.std.specs.Prelude.{◌≡◌, ℕ, ◌≤◌, List, [], None, Some, IfOk, MatchResult, vec_len};
ghost use Rattle.tl_edge.specs.Files.{IsAnswer, IsWithin};
ghost use Rattle.std.specs.IoError.{error_kind};
ghost use Rattle.tlua.specs.Disk.{files_error, Fills};

use crate::retry::{open_file, read_some};
use std::io;
use std::io::{ErrorKind, Read};
use std::rt::Files as FileSystem;
use tl_edge::{Files, FilesError, Found};

/// A file is read in pieces of at most so many bytes.
const PIECE: usize = 65536;

/// What an error of the system means to the one who reads a file.
fn error_of(error: &io::Error) -> FilesError
    ensures { result ≡ files_error (error_kind error.now) }
{
    if error.kind() == ErrorKind::OutOfMemory {
        FilesError::NoMemory
    } else {
        FilesError::Failed
    }
}

/// Gives the answer of a read that leaves nothing.
fn emptied(out: &mut Vec<u8>, answer: Result<Found, FilesError>) -> Result<Found, FilesError>
    ensures answer { result ≡ answer }
    ensures out { out.new.items ≡ [] }
{
    out.clear();
    answer
}

/// Appends what the reader has left, up to the limit, and answers whether that is all.
fn fill<S: Read>(reader: &mut S, limit: u64, out: &mut Vec<u8>) -> Result<bool, FilesError>
    requires { out.old.items ≡ [] }
    ensures within { vec_len out.new ≤ limit }
    ensures bytes { IfOk result (λ whole. Fills (S.remaining reader.old) limit whole out.new.items) }
{
    let mut piece = [0; PIECE];
    'pieces: loop {
        match read_some(reader, &mut piece) {
            Ok(0) => return Ok(true),
            Ok(count) => {
                if count as u64 > limit - out.len() as u64 {
                    return Ok(false);
                }
                out.extend_from_slice(&piece[..count])?;
            }
            Err(error) => return Err(error_of(&error)),
        }
    }
}

/// Reads all that the reader has left, if it is at most `limit` bytes. `out` is empty after any other answer than `Whole`.
pub fn read_whole<S: Read>(
    reader: &mut S,
    limit: u64,
    out: &mut Vec<u8>,
) -> Result<Found, FilesError>
    ensures within { MatchResult result (λ found. IsWithin found limit out.new.items) (λ _. out.new.items ≡ []) }
    ensures bytes { (bytes : List ℕ) → S.remaining reader.old ≡ Some bytes → IfOk result (λ found. IsAnswer (Some bytes) limit found out.new.items) }
{
    out.clear();
    match fill(reader, limit, out) {
        Ok(true) => Ok(Found::Whole),
        Ok(false) => emptied(out, Ok(Found::TooLong)),
        Err(error) => emptied(out, Err(error)),
    }
}

/// Opens a file and reads it whole.
fn read_named<R: FileSystem>(
    system: &R,
    name: &str,
    limit: u64,
    out: &mut Vec<u8>,
) -> Result<Found, FilesError>
    ensures within { MatchResult result (λ found. IsWithin found limit out.new.items) (λ _. out.new.items ≡ []) }
{
    match open_file(system, name) {
        Ok(mut file) => read_whole(&mut file, limit, out),
        Err(error) if error.kind() == ErrorKind::NotFound => emptied(out, Ok(Found::Missing)),
        Err(error) => emptied(out, Err(error_of(&error))),
    }
}

/// The files of the system. They tell no content.
#[derive(Drop)]
pub struct DiskFiles<'a, R: FileSystem> {
    system: &'a R,
    faults: u64,
}

impl<'a, R: FileSystem> DiskFiles<'a, R> {
    /// No call has failed yet.
    pub fn new(system: &'a R) -> DiskFiles<'a, R>
        ensures { result.faults ≡ 0 }
    {
        DiskFiles { system, faults: 0 }
    }
}

impl<R: FileSystem> Files for DiskFiles<'_, R> {
    ghost told = { λ _. None };

    ghost faults = { λ files. files.faults };

    fn read(&mut self, name: &str, limit: u64, out: &mut Vec<u8>) -> Result<Found, FilesError> {
        match read_named(self.system, name, limit, out) {
            Err(FilesError::Failed) => {
                self.faults = self.faults.saturating_add(1);
                Err(FilesError::Failed)
            }
            answer => answer,
        }
    }

    fn faults(&self) -> u64 {
        self.faults
    }
}
