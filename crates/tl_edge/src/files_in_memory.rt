ghost use Rattle.std.specs.Prelude.{◌≡◌, Some, IfErr, IfOk, IsOk, IsErrOf, IsTrue, ◌↔◌};
ghost use Rattle.std.specs.Option.{option_copied};
ghost use Rattle.tl_edge.specs.Calls.{no_call, fails_next, after_call};
ghost use Rattle.tl_edge.specs.Edge.{HasCause};
ghost use Rattle.tl_edge.specs.Files.{bytes_of, Reads};

use crate::calls::Calls;
use crate::{FileBytes, Files, FilesError, Found};
use std::alloc::Global;
use tl_base::{List, NoMemory};

/// Files in memory that never fail; only memory may run out.
#[derive(Debug, Drop)]
pub struct SureFiles {
    content: List<FileBytes>,
}

impl SureFiles {
    /// Of several entries of one name the first counts.
    pub fn new(_alloc: Global, content: List<FileBytes>) -> Result<SureFiles, NoMemory>
        ensures made { IsOk result }
        ensures told { IfOk result (λ files. ⟦<SureFiles as Files>⟧.told files ≡ Some content) }
    {
        Ok(SureFiles { content })
    }
}

impl Files for SureFiles {
    ghost told = { λ files. Some files.content };

    ghost faults = { λ _. 0 };

    fn read(&mut self, name: &str, limit: u64, out: &mut Vec<u8>) -> Result<Found, FilesError> {
        read_named(self.content.as_slice(), name, limit, out)
    }

    fn faults(&self) -> u64 {
        0
    }
}

/// Files in memory of which chosen calls fail.
#[derive(Debug, Drop)]
pub struct MemFiles {
    content: List<FileBytes>,
    calls: Calls,
}

impl MemFiles {
    /// Of several entries of one name the first counts. `failing` has the numbers, from 1, of the calls that fail.
    pub fn new(
        _alloc: Global,
        content: List<FileBytes>,
        failing: List<u64>,
    ) -> Result<MemFiles, NoMemory>
        ensures made { IsOk result }
        ensures told { IfOk result (λ files. ⟦<MemFiles as Files>⟧.told files ≡ Some content) }
        ensures faults { IfOk result (λ files. ⟦<MemFiles as Files>⟧.faults files ≡ 0) }
        ensures calls { IfOk result (λ files. files.calls ≡ no_call failing) }
    {
        Ok(MemFiles {
            content,
            calls: Calls::new(failing),
        })
    }
}

impl Files for MemFiles {
    ghost told = { λ files. Some files.content };

    ghost faults = { λ files. files.calls.faults };

    fn read(&mut self, name: &str, limit: u64, out: &mut Vec<u8>) -> Result<Found, FilesError>
        ensures bytes { Reads (Some self.old.content) name.now limit result out.new.items }
        ensures told { self.new.content ≡ self.old.content }
        ensures cause { HasCause self.old.calls.faults self.new.calls.faults (IsErrOf result FilesError.Failed) }
        ensures failing { IsErrOf result FilesError.Failed ↔ IsTrue (fails_next self.old.calls) }
        ensures counted { self.new.calls ≡ after_call self.old.calls }
    {
        if self.calls.fails() {
            out.clear();
            return Err(FilesError::Failed);
        }
        read_named(self.content.as_slice(), name, limit, out)
    }

    fn faults(&self) -> u64 {
        self.calls.faults()
    }
}

/// The bytes of the first file of this name.
fn bytes_named<'a>(content: &'a [FileBytes], name: &[u8]) -> Option<&'a [u8]>
    ensures { option_copied result ≡ bytes_of content.now name.now }
{
    let file = content.iter().find(|file| file.name.as_slice() == name)?;
    Some(file.bytes.as_slice())
}

/// Reads the first file of this name, and fails only where memory ran out.
fn read_named(
    content: &[FileBytes],
    name: &str,
    limit: u64,
    out: &mut Vec<u8>,
) -> Result<Found, FilesError>
    ensures bytes { Reads (Some content.now) name.now limit result out.new.items }
    ensures memory { IfErr result (λ error. error ≡ FilesError.NoMemory) }
{
    out.clear();
    let Some(bytes) = bytes_named(content, name.as_bytes()) else {
        return Ok(Found::Missing);
    };
    if bytes.len() as u64 > limit {
        return Ok(Found::TooLong);
    }
    out.extend_from_slice(bytes)?;
    Ok(Found::Whole)
}
