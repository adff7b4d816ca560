ghost use Rattle.std.specs.Prelude.{◌≡◌, ◌<◌, [], length, Some, IfOk, IfErr, IsOk, IsErrOf, IsTrue, ◌↔◌};
ghost use Rattle.std.specs.Io.{ReadsAtMost};
ghost use Rattle.std.specs.Io.KnownBytes.{WriteAppends};
ghost use Rattle.tl_edge.specs.Calls.{no_call, fails_next, after_call};
ghost use Rattle.tl_edge.specs.Edge.{HasCause, TakesSome};

use crate::calls::Calls;
use crate::{Sink, SinkError};
use std::alloc::Global;
use tl_base::{Bytes, List, NoMemory};

/// Takes the piece whole, and fails only where memory ran out.
fn append(held: &mut Bytes, piece: &[u8]) -> Result<usize, SinkError>
    ensures bytes { WriteAppends (Some held.old) (Some held.new) result piece.now }
    ensures count { IfOk result (λ n. n ≡ length piece.now) }
    ensures memory { IfErr result (λ error. error ≡ SinkError.NoMemory) }
{
    held.extend(piece)?;
    Ok(piece.len())
}

/// An output in memory that never fails; only memory may run out. It takes each piece whole.
#[derive(Debug, Drop)]
pub struct SureSink {
    held: Bytes,
}

impl SureSink {
    /// Nothing was written yet.
    pub fn new(alloc: Global) -> Result<SureSink, NoMemory>
        ensures made { IsOk result }
        ensures written { IfOk result (λ sink. ⟦<SureSink as Sink>⟧.written sink ≡ Some []) }
    {
        Ok(SureSink {
            held: Bytes::new(alloc),
        })
    }

    /// All that was written.
    pub fn bytes(&self) -> &[u8]
        ensures { ⟦<SureSink as Sink>⟧.written self.now ≡ Some result.now }
    {
        self.held.as_slice()
    }
}

impl Sink for SureSink {
    ghost written = { λ sink. Some sink.held };

    ghost faults = { λ _. 0 };

    fn write(&mut self, piece: &[u8]) -> Result<usize, SinkError>
        ensures bound { ReadsAtMost result piece.now }
        ensures bytes { WriteAppends (Some self.old.held) (Some self.new.held) result piece.now }
        ensures some { TakesSome piece.now result }
        ensures cause { HasCause 0 0 (IsErrOf result SinkError.Failed) }
        ensures count { IfOk result (λ n. n ≡ length piece.now) }
    {
        append(&mut self.held, piece)
    }

    fn faults(&self) -> u64 {
        0
    }
}

/// An output in memory of which chosen calls fail. It takes each other piece whole.
#[derive(Debug, Drop)]
pub struct MemSink {
    held: Bytes,
    calls: Calls,
}

impl MemSink {
    /// Nothing was written yet. `failing` has the numbers, from 1, of the calls that fail; calls with an empty piece have no number.
    pub fn new(alloc: Global, failing: List<u64>) -> Result<MemSink, NoMemory>
        ensures made { IsOk result }
        ensures written { IfOk result (λ sink. ⟦<MemSink as Sink>⟧.written sink ≡ Some []) }
        ensures faults { IfOk result (λ sink. ⟦<MemSink as Sink>⟧.faults sink ≡ 0) }
        ensures calls { IfOk result (λ sink. sink.calls ≡ no_call failing) }
    {
        Ok(MemSink {
            held: Bytes::new(alloc),
            calls: Calls::new(failing),
        })
    }

    /// All that was written.
    pub fn bytes(&self) -> &[u8]
        ensures { ⟦<MemSink as Sink>⟧.written self.now ≡ Some result.now }
    {
        self.held.as_slice()
    }
}

impl Sink for MemSink {
    ghost written = { λ sink. Some sink.held };

    ghost faults = { λ sink. sink.calls.faults };

    fn write(&mut self, piece: &[u8]) -> Result<usize, SinkError>
        ensures bound { ReadsAtMost result piece.now }
        ensures bytes { WriteAppends (Some self.old.held) (Some self.new.held) result piece.now }
        ensures some { TakesSome piece.now result }
        ensures cause { HasCause self.old.calls.faults self.new.calls.faults (IsErrOf result SinkError.Failed) }
        ensures count { IfOk result (λ n. n ≡ length piece.now) }
        ensures failing { 0 < length piece.now → (IsErrOf result SinkError.Failed ↔ IsTrue (fails_next self.old.calls)) }
        ensures counted { 0 < length piece.now → self.new.calls ≡ after_call self.old.calls }
        ensures uncounted { piece.now ≡ [] → (result ≡ Ok 0) × (self.new ≡ self.old) }
    {
        if piece.is_empty() {
            return Ok(0);
        }
        if self.calls.fails() {
            return Err(SinkError::Failed);
        }
        append(&mut self.held, piece)
    }

    fn faults(&self) -> u64 {
        self.calls.faults()
    }
}
