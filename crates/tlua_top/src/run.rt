//! A program's run, with what is reported of it.

ghost use Rattle.std.specs.Prelude.{◌≡◌, ◌⊎◌, ◌++◌, ℕ, List, IfOk, IsErrOf};
ghost use Rattle.tl_edge.specs.Edge.{HasCause, Rose};
ghost use Rattle.tlua_top.specs.Outcome.{Stopped, Delivers};
ghost use Rattle.tlua_top.specs.Output.{Reports};
ghost use Rattle.tlua_top.specs.Defined.{status_of};
ghost use Rattle.tlua_top.specs.Asked.{run_ending};
ghost use Rattle.tlua_top.specs.Serving.{over_of, lines_after, IsOfRun};

use crate::accept::Program;
use crate::output::{report_lines, stopped_by, write_all};
use crate::report::{push_kind_lines, push_last_line};
use crate::serve::{Over, serve};
use crate::start::{BUDGET, Started, start};
use crate::status::Status;
use lua_machine::Machine;
use std::alloc::Global;
use tl_base::{Bytes, NoMemory};
use tl_edge::Sink;

/// The report's lines behind a run.
fn lines_after(
    alloc: Global,
    file: &[u8],
    machine: &Machine,
    over: &Over,
) -> Result<Bytes, NoMemory>
    ensures { IfOk result (λ lines. lines ≡ lines_after file.now over.now machine.now) }
{
    let mut lines = Bytes::new(alloc);
    push_kind_lines(&mut lines, file, machine.first_kind_error())?;
    let turns = BUDGET.saturating_sub(machine.turns_left());
    push_last_line(alloc, &mut lines, over, turns)?;
    Ok(lines)
}

/// The status of a call whose program ran to this end.
fn status_of(over: &Over) -> Status
    ensures status { result ≡ status_of (over_of over.now) }
    ensures settled { Stopped result → ⊥ }
    ensures kind { IsOfRun result }
{
    match over {
        Over::Done => Status::Done,
        Over::Raised(_) => Status::LuaError,
        Over::Spent => Status::TurnsSpent,
    }
}

/// Reports how a run is over.
fn report_end<R: Sink>(
    alloc: Global,
    file: &[u8],
    machine: &Machine,
    over: &Over,
    report: &mut R,
) -> Status
    ensures bytes { Reports (R.written report.old) (R.written report.new) (lines_after file.now over.now machine.now) (status_of (over_of over.now)) result }
    ensures kind { IsOfRun result }
    ensures cause { HasCause (R.faults report.old) (R.faults report.new) (result ≡ Status.WriteFault) }
{
    match lines_after(alloc, file, machine, over) {
        Ok(lines) => report_lines(report, lines.as_slice(), status_of(over)),
        Err(NoMemory) => Status::NoMemory,
    }
}

/// Runs a program: its crossings are reported, then its output is written as it comes, then its end is reported.
pub fn run_program<O: Sink, R: Sink>(
    alloc: Global,
    program: Program,
    output: &mut O,
    report: &mut R,
) -> Status
    ensures bytes { (input : List ℕ) → Delivers (λ e. e ≡ run_ending input program) result (O.written output.old) (O.written output.new) (R.written report.old) (R.written report.new) }
    ensures kind { IsOfRun result }
    ensures write_fault { result ≡ Status.WriteFault → Rose (O.faults output.old) (O.faults output.new) ⊎ Rose (R.faults report.old) (R.faults report.new) }
{
    let Started {
        file,
        ahead,
        mut machine,
    } = match start(alloc, program) {
        Ok(started) => started,
        Err(NoMemory) => return Status::NoMemory,
    };
    if let Err(error) = write_all(report, ahead.as_slice()) {
        return stopped_by(error);
    }
    match serve(&mut machine, output) {
        Ok(over) => report_end(alloc, file.as_slice(), &machine, &over, report),
        Err(status) => status,
    }
}
