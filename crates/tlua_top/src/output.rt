ghost use Rattle.std.specs.Prelude.{◌≡◌, ◌⊎◌, IsErrOf};
ghost use Rattle.tl_edge.specs.Edge.{HasCause};
ghost use Rattle.tlua_top.specs.Outcome.{Stopped};
ghost use Rattle.tlua_top.specs.Output.{stop_of, WritesAll, Reports};

use crate::status::Status;
use tl_edge::{Sink, SinkError};

/// Hands a whole piece over, in as many calls as it takes.
pub fn write_all<S: Sink>(sink: &mut S, piece: &[u8]) -> Result<(), SinkError>
    ensures bytes { WritesAll (S.written sink.old) (S.written sink.new) result piece.now }
    ensures cause { HasCause (S.faults sink.old) (S.faults sink.new) (IsErrOf result SinkError.Failed) }
{
    let mut rest = piece;
    'pieces: while !rest.is_empty() {
        match sink.write(rest) {
            Ok(count) => rest = &rest[count..],
            Err(error) => return Err(error),
        }
    }
    Ok(())
}

/// The status of a call that stops at this error.
pub fn stopped_by(error: SinkError) -> Status
    ensures status { result ≡ stop_of error }
    ensures stopped { Stopped result }
{
    match error {
        SinkError::Failed => Status::WriteFault,
        SinkError::NoMemory => Status::NoMemory,
    }
}

/// Writes lines to the report, and answers the status that follows them.
pub fn report_lines<S: Sink>(sink: &mut S, lines: &[u8], status: Status) -> Status
    requires { Stopped status → ⊥ }
    ensures bytes { Reports (S.written sink.old) (S.written sink.new) lines.now status result }
    ensures kind { (result ≡ status) ⊎ (result ≡ Status.WriteFault) ⊎ (result ≡ Status.NoMemory) }
    ensures cause { HasCause (S.faults sink.old) (S.faults sink.new) (result ≡ Status.WriteFault) }
{
    match write_all(sink, lines) {
        Ok(()) => status,
        Err(error) => stopped_by(error),
    }
}
