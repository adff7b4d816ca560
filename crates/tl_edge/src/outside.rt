use tl_base::Bytes;

/// A file of the outside: its name and its bytes.
#[derive(Debug, Drop)]
pub struct FileBytes {
    pub name: Bytes,
    pub bytes: Bytes,
}

/// What became of a file that was asked for.
#[derive(Clone, Copy, Debug, PartialEq, Eq)]
pub enum Found {
    /// all its bytes were read
    Whole,
    /// there is no such file
    Missing,
    /// it has more bytes than the limit
    TooLong,
}

/// Why a file wasn't read.
#[derive(Clone, Copy, Debug, PartialEq, Eq)]
pub enum FilesError {
    /// the files failed, which their count of faults shows
    Failed,
    /// memory ran out, which is no fault
    NoMemory,
}

/// The input failed, which its count of faults shows.
#[derive(Clone, Copy, Debug, PartialEq, Eq)]
pub struct Failed;

/// Why bytes weren't written.
#[derive(Clone, Copy, Debug, PartialEq, Eq)]
pub enum SinkError {
    /// the output failed, which its count of faults shows
    Failed,
    /// memory ran out, which is no fault
    NoMemory,
}

/// Files that are asked for by name.
///
/// An object may tell the names and bytes that it holds, which no call changes. Its count of faults never falls.
pub trait Files {
    ghost use Rattle.std.specs.Prelude.{◌≡◌, ℕ, List, Option, IsErrOf};
    ghost use Rattle.tl_edge.specs.Edge.{HasCause};
    ghost use Rattle.tl_edge.specs.Files.{Reads};
    ghost use Rattle.tl_edge.specs.declared.outside.FileBytes.{FileBytes as TheFile};

    ghost told: { Self → Option (List TheFile) };

    ghost faults: { Self → ℕ };

    /// Reads a whole file of at most `limit` bytes into `out`, which is empty after any other answer. The memory is that of `out`.
    fn read(&mut self, name: &str, limit: u64, out: &mut Vec<u8>) -> Result<Found, FilesError>
        ensures bytes { Reads (told self.old) name.now limit result out.new.items }
        ensures told { told self.new ≡ told self.old }
        ensures cause { HasCause (faults self.old) (faults self.new) (IsErrOf result FilesError.Failed) };

    /// How many calls have failed, up to the greatest `u64`.
    fn faults(&self) -> u64
        ensures { result ≡ faults self.now };
}

/// An input that gives its bytes in pieces.
///
/// An object may tell the bytes that are left. Its count of faults never falls.
pub trait Source {
    ghost use Rattle.std.specs.Prelude.{◌≡◌, ℕ, List, [], Option, IsErr};
    ghost use Rattle.std.specs.Io.{ReadsAtMost};
    ghost use Rattle.std.specs.Io.KnownBytes.{ReadConsumes};
    ghost use Rattle.tl_edge.specs.Edge.{HasCause};

    ghost left: { Self → Option (List ℕ) };

    ghost faults: { Self → ℕ };

    /// Moves bytes to the front of `buf`, and answers how many: for a `buf` with room, 0 only at the end.
    /// A call with an empty `buf` answers 0. After `Failed` no byte is lost.
    fn read(&mut self, buf: &mut [u8]) -> Result<usize, Failed>
        ensures bound { ReadsAtMost result buf.new }
        ensures bytes { ReadConsumes (left self.old) (left self.new) result buf.new }
        ensures empty { buf.old ≡ [] → result ≡ Ok 0 }
        ensures cause { HasCause (faults self.old) (faults self.new) (IsErr result) };

    /// How many calls have failed, up to the greatest `u64`.
    fn faults(&self) -> u64
        ensures { result ≡ faults self.now };
}

/// An output that takes bytes in pieces.
///
/// An object may tell the bytes that were written. Its count of faults never falls.
pub trait Sink {
    ghost use Rattle.std.specs.Prelude.{◌≡◌, ℕ, List, Option, IsErrOf};
    ghost use Rattle.std.specs.Io.{ReadsAtMost};
    ghost use Rattle.std.specs.Io.KnownBytes.{WriteAppends};
    ghost use Rattle.tl_edge.specs.Edge.{HasCause, TakesSome};

    ghost written: { Self → Option (List ℕ) };

    ghost faults: { Self → ℕ };

    /// Appends the first bytes of `piece`, and answers how many: of a piece that isn't empty, at least one.
    /// An error appends nothing.
    fn write(&mut self, piece: &[u8]) -> Result<usize, SinkError>
        ensures bound { ReadsAtMost result piece.now }
        ensures bytes { WriteAppends (written self.old) (written self.new) result piece.now }
        ensures some { TakesSome piece.now result }
        ensures cause { HasCause (faults self.old) (faults self.new) (IsErrOf result SinkError.Failed) };

    /// How many calls have failed, up to the greatest `u64`.
    fn faults(&self) -> u64
        ensures { result ≡ faults self.now };
}
