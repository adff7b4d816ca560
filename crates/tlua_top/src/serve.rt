//! A machine's run, whose output is written as it comes.

ghost use Rattle.std.specs.Prelude.{[], IfErr, IsErrOf};
ghost use Rattle.tl_edge.specs.Edge.{HasCause};
ghost use Rattle.lua_meaning.specs.Programs.{Result as Whole};
ghost use Rattle.tlua_top.specs.Words.{Text};
ghost use Rattle.tlua_top.specs.Serving.{ComesTo, Serves, StopsWriting};

use crate::output::{stopped_by, write_all};
use crate::status::Status;
use lua_machine::{Event, Machine};
use lua_values::Value;
use tl_edge::Sink;

/// How a run is over.
#[derive(Debug, Drop)]
pub enum Over {
    Done,
    /// with an error of this value, which nothing caught
    Raised(Value),
    /// its turns were used up
    Spent,
}

/// Runs a machine to its end, and writes what it tells as it comes.
pub fn serve<O: Sink>(machine: &mut Machine, output: &mut O) -> Result<Over, Status>
    ensures bytes { (input : Text) (whole : Whole) → ComesTo [] input machine.old whole → Serves whole (O.written output.old) (O.written output.new) machine.new result }
    ensures stops { IfErr result StopsWriting }
    ensures cause { HasCause (O.faults output.old) (O.faults output.new) (IsErrOf result Status.WriteFault) }
{
    'events: for _ in 0..u64::MAX {
        match machine.advance() {
            Ok(Event::Output(text)) => {
                if let Err(error) = write_all(output, text.bytes()) {
                    return Err(stopped_by(error));
                }
            }
            Ok(Event::Done) => return Ok(Over::Done),
            Ok(Event::Raised(value)) => return Ok(Over::Raised(value)),
            Ok(Event::Spent) => return Ok(Over::Spent),
            Err(_) => return Err(Status::NoMemory),
        }
    }
    // no run writes so often
    Err(Status::NoMemory)
}
