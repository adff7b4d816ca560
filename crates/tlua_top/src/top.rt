ghost use Rattle.std.specs.Prelude.{◌≡◌, ◌⊎◌, ℕ, List, Some, None, map, string_bytes};
ghost use Rattle.tl_edge.specs.Edge.{Rose};
ghost use Rattle.tl_edge.specs.declared.outside.FileBytes.{FileBytes as TheFile};
ghost use Rattle.tlua_top.specs.Outcome.{Ending, Stopped, Meets};
ghost use Rattle.tlua_top.specs.Words.{file_to_run, kind_to_read};
ghost use Rattle.tlua_top.specs.Defined.{Defined};
ghost use Rattle.tlua_top.specs.Sound.{IsSound};

use crate::asked::{Asked, Unknown, settle};
use crate::output::report_lines;
use crate::run::run_program;
use crate::status::Status;
use std::alloc::Global;
use tl_edge::{Files, Sink, Source};

/// Does what the words ask for. The words are those after the program's name. The program's own output goes to `output`, and all that
/// is said of it to `report`. No program reads input yet, so `input` is left alone.
pub fn tlua<F: Files, I: Source, O: Sink, R: Sink>(
    alloc: Global,
    words: &[String],
    files: &mut F,
    input: &mut I,
    output: &mut O,
    report: &mut R,
) -> Status
    // Where the files and the input tell what they have, status and bytes are those that the words ask for.
    ensures meaning { (told : List TheFile) (text : List ℕ) → F.told files.old ≡ Some told → I.left input.old ≡ Some text →
        Meets (Defined (map (λ word. string_bytes word) words.now) told text) result
        (O.written output.old) (O.written output.new) (R.written report.old) (R.written report.new) (I.left input.old) (I.left input.new) }

    // Where words ask for a run whose report has a `kind` line, that line names a crossing of the list printed before the run.
    ensures sound { (told : List TheFile) (text : List ℕ) (ending : Ending) → F.told files.old ≡ Some told → I.left input.old ≡ Some text →
        Defined (map (λ word. string_bytes word) words.now) told text ending → IsSound ending }

    // Whatever they tell, the usage line comes only for words that can't be read ..
    ensures usage { result ≡ Status.Usage → file_to_run (map (λ word. string_bytes word) words.now) ≡ None }
    // .. and for those nothing else comes but a stop.
    ensures no_reading { file_to_run (map (λ word. string_bytes word) words.now) ≡ None → (result ≡ Status.Usage) ⊎ Stopped result }
    // Where the words ask for no file, none is read.
    ensures unread { kind_to_read (map (λ word. string_bytes word) words.now) ≡ None → files.new ≡ files.old }

    // A fault is told only where it happened in this call.
    ensures read_fault { result ≡ Status.ReadFault → Rose (F.faults files.old) (F.faults files.new) ⊎ Rose (I.faults input.old) (I.faults input.new) }
    ensures write_fault { result ≡ Status.WriteFault → Rose (O.faults output.old) (O.faults output.new) ⊎ Rose (R.faults report.old) (R.faults report.new) }
{
    match settle(alloc, words, files) {
        Ok(Asked::Report(status, line)) => report_lines(report, line.as_slice(), status),
        Ok(Asked::Run(program)) => run_program(alloc, program, output, report),
        Err(Unknown::ReadFault) => Status::ReadFault,
        Err(Unknown::NoMemory) => Status::NoMemory,
    }
}
