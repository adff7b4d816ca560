//! What words ask for, before anything of it is written.

ghost use Rattle.std.specs.Prelude.{◌≡◌, ℕ, List, map, string_bytes, IfOk, IsErrOf, MatchOption};
ghost use Rattle.tl_edge.specs.Edge.{HasCause};
ghost use Rattle.tl_edge.specs.Files.{bytes_of};
ghost use Rattle.tl_edge.specs.declared.outside.FileBytes.{FileBytes as TheFile};
ghost use Rattle.tlua_top.specs.Words.{file_to_run, kind_to_read};
ghost use Rattle.tlua_top.specs.Outcome.{only_reports};
ghost use Rattle.tlua_top.specs.Lines.{usage_line};
ghost use Rattle.tlua_top.specs.Phases.{refused};
ghost use Rattle.tlua_top.specs.Defined.{OfSource, OfBytes, Defined};
ghost use Rattle.tlua_top.specs.Asked.{ending_of, IsUsage, IsOfFile, IsSettled};
ghost use Rattle.tlua_top.specs.declared.asked.Unknown.TheVariants as unknown;

use crate::accept::{Program, of_file, of_source};
use crate::report::refusal_line;
use crate::status::Status;
use crate::words::{file_to_run, kind_of_word};
use std::alloc::Global;
use tl_base::{Bytes, Failure, ModuleKind, NoMemory, Refusal, RefusalCode};
use tl_edge::{Files, FilesError, Found};

const LONGEST_FILE: u64 = 1_048_576;

/// What words ask for.
#[derive(Drop)]
pub enum Asked {
    /// No program runs, and the report has this one line.
    Report(Status, Bytes),
    Run(Program),
}

/// Why it isn't known what words ask for.
#[derive(Clone, Copy, Debug, PartialEq, Eq)]
pub enum Unknown {
    /// the files failed
    ReadFault,
    NoMemory,
}

impl From<NoMemory> for Unknown {
    ghost from_gives = { λ _ u. u ≡ unknown.NoMemory };

    fn from(_error: NoMemory) -> Unknown {
        Unknown::NoMemory
    }
}

fn refused(alloc: Global, file: &str, refusal: Refusal) -> Result<Asked, NoMemory>
    ensures meaning { (input : List ℕ) → IfOk result (λ a. ending_of input a ≡ refused file.now refusal) }
    ensures reading { IfOk result IsOfFile }
    ensures settled { IfOk result IsSettled }
{
    let line = refusal_line(alloc, file.as_bytes(), refusal)?;
    Ok(Asked::Report(Status::Refused, line))
}

fn usage(alloc: Global) -> Result<Asked, NoMemory>
    ensures meaning { (input : List ℕ) → IfOk result (λ a. ending_of input a ≡ only_reports Status.Usage usage_line) }
    ensures reading { IfOk result IsUsage }
    ensures settled { IfOk result IsSettled }
{
    let line = Bytes::from_slice(alloc, b"usage: tlua run|check|erase|code|gen\n")?;
    Ok(Asked::Report(Status::Usage, line))
}

/// What a file asks for that has these bytes.
fn of_bytes(alloc: Global, file: &str, kind: ModuleKind, source: &[u8]) -> Result<Asked, NoMemory>
    ensures meaning { (input : List ℕ) → IfOk result (λ a. OfSource file.now input kind source.now (ending_of input a)) }
    ensures reading { IfOk result IsOfFile }
    ensures settled { IfOk result IsSettled }
{
    match of_source(alloc, file, kind, source) {
        Ok(program) => Ok(Asked::Run(program)),
        Err(Failure::Refused(refusal)) => refused(alloc, file, refusal),
        Err(Failure::NoMemory) => Err(NoMemory),
    }
}

/// What a file asks for, whose module is of this kind.
fn of_word<F: Files>(
    alloc: Global,
    files: &mut F,
    file: &str,
    kind: ModuleKind,
) -> Result<Asked, Unknown>
    ensures meaning { (told : List TheFile) (input : List ℕ) → F.told files.old ≡ Some told → IfOk result (λ a. OfBytes file.now input (bytes_of told file.now) kind (ending_of input a)) }
    ensures reading { IfOk result IsOfFile }
    ensures settled { IfOk result IsSettled }
    ensures cause { HasCause (F.faults files.old) (F.faults files.new) (IsErrOf result Unknown.ReadFault) }
{
    let mut source = Vec::new(alloc);
    match files.read(file, LONGEST_FILE, &mut source) {
        Ok(Found::Whole) => Ok(of_bytes(alloc, file, kind, source.as_slice())?),
        Ok(Found::Missing) => Ok(refused(alloc, file, of_file(RefusalCode::G6))?),
        Ok(Found::TooLong) => Ok(refused(alloc, file, of_file(RefusalCode::L5))?),
        Err(FilesError::Failed) => Err(Unknown::ReadFault),
        Err(FilesError::NoMemory) => Err(Unknown::NoMemory),
    }
}

/// What words ask for.
pub fn settle<F: Files>(alloc: Global, words: &[String], files: &mut F) -> Result<Asked, Unknown>
    ensures meaning { (told : List TheFile) (input : List ℕ) → F.told files.old ≡ Some told → IfOk result (λ a. Defined (map (λ word. string_bytes word) words.now) told input (ending_of input a)) }
    ensures reading { MatchOption (file_to_run (map (λ word. string_bytes word) words.now)) (IfOk result IsUsage) (λ file. IfOk result IsOfFile) }
    ensures settled { IfOk result IsSettled }
    ensures cause { HasCause (F.faults files.old) (F.faults files.new) (IsErrOf result Unknown.ReadFault) }
    ensures unread { kind_to_read (map (λ word. string_bytes word) words.now) ≡ None → files.new ≡ files.old }
{
    match file_to_run(words) {
        None => Ok(usage(alloc)?),
        Some(file) => match kind_of_word(file) {
            None => Ok(refused(alloc, file, of_file(RefusalCode::X1))?),
            Some(kind) => of_word(alloc, files, file, kind),
        },
    }
}
