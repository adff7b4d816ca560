//! A program just before its run.

ghost use Rattle.std.specs.Prelude.{[], IfOk};
ghost use Rattle.lua_meaning.specs.Programs.{module_of};
ghost use Rattle.tlua_top.specs.Words.{Text};
ghost use Rattle.tlua_top.specs.Defined.{run_of};
ghost use Rattle.tlua_top.specs.Serving.{ComesTo, IsStarted};

use crate::accept::Program;
use crate::report::crossing_lines;
use code_gen::generate;
use lua_machine::Machine;
use lua_tree::Scoped;
use std::alloc::Global;
use tl_base::{Bytes, List, ModuleKind, NoMemory};

/// How many turns a run may take.
pub const BUDGET: u64 = 10_000_000;

/// A program that is about to run.
#[derive(Drop)]
pub struct Started {
    /// the word of its file
    pub file: Bytes,
    /// the report's lines before it runs
    pub ahead: Bytes,
    pub machine: Machine,
}

/// A machine that is to run this module from the file of this word.
fn machine_of(alloc: Global, file: &[u8], scoped: Scoped) -> Result<Machine, NoMemory>
    ensures { IfOk result (λ machine. (input : Text) → ComesTo [] input machine (run_of file.now input (module_of scoped))) }
{
    let kind = scoped.chunk.kind;
    let mut modules = List::new(alloc);
    modules.push(scoped)?;
    let code = generate(alloc, modules.as_slice())?;
    let mut files = List::new(alloc);
    files.push(Bytes::from_slice(alloc, file)?)?;
    let mut kinds: List<ModuleKind> = List::new(alloc);
    kinds.push(kind)?;
    let machine = Machine::new(alloc, code, files, kinds, BUDGET, 0)?;
    Ok(machine)
}

/// Makes a program's code, and a machine that is to run it.
pub fn start(alloc: Global, program: Program) -> Result<Started, NoMemory>
    ensures { IfOk result (IsStarted program) }
{
    let Program {
        file,
        scoped,
        crossings,
    } = program;
    let ahead = crossing_lines(alloc, file.as_slice(), crossings.as_slice())?;
    let machine = machine_of(alloc, file.as_slice(), scoped)?;
    Ok(Started {
        file,
        ahead,
        machine,
    })
}
