ghost use Rattle.std.specs.Prelude.{◌≡◌, ◌<◌, [], min, length, Some, IfOk, IsOk, IsErr, IsTrue, ◌↔◌};
ghost use Rattle.std.specs.Io.{ReadsAtMost};
ghost use Rattle.std.specs.Io.KnownBytes.{ReadConsumes};
ghost use Rattle.tl_edge.specs.Calls.{no_call, fails_next, after_call};
ghost use Rattle.tl_edge.specs.Edge.{HasCause};

use crate::calls::Calls;
use crate::rest::Rest;
use crate::{Failed, Source};
use std::alloc::Global;
use tl_base::{Bytes, List, NoMemory};

/// An input in memory that never fails. A read gives as many bytes as fit.
#[derive(Debug, Drop)]
pub struct SureSource {
    rest: Rest,
}

impl SureSource {
    /// All these bytes are left.
    pub fn new(_alloc: Global, content: Bytes) -> Result<SureSource, NoMemory>
        ensures made { IsOk result }
        ensures left { IfOk result (λ source. ⟦<SureSource as Source>⟧.left source ≡ Some content) }
    {
        Ok(SureSource {
            rest: Rest::new(content),
        })
    }
}

impl Source for SureSource {
    ghost left = { λ source. Some source.rest };

    ghost faults = { λ _. 0 };

    fn read(&mut self, buf: &mut [u8]) -> Result<usize, Failed>
        ensures bound { ReadsAtMost result buf.new }
        ensures bytes { ReadConsumes (Some self.old.rest) (Some self.new.rest) result buf.new }
        ensures empty { buf.old ≡ [] → result ≡ Ok 0 }
        ensures cause { HasCause 0 0 (IsErr result) }
        ensures count { result ≡ Ok (min (length buf.old) (length self.old.rest)) }
    {
        Ok(self.rest.give(buf))
    }

    fn faults(&self) -> u64 {
        0
    }
}

/// An input in memory of which chosen calls fail. A read that doesn't fail gives as many bytes as fit.
#[derive(Debug, Drop)]
pub struct MemSource {
    rest: Rest,
    calls: Calls,
}

impl MemSource {
    /// All these bytes are left. `failing` has the numbers, from 1, of the calls that fail; calls with an empty buffer have no number.
    pub fn new(_alloc: Global, content: Bytes, failing: List<u64>) -> Result<MemSource, NoMemory>
        ensures made { IsOk result }
        ensures left { IfOk result (λ source. ⟦<MemSource as Source>⟧.left source ≡ Some content) }
        ensures faults { IfOk result (λ source. ⟦<MemSource as Source>⟧.faults source ≡ 0) }
        ensures calls { IfOk result (λ source. source.calls ≡ no_call failing) }
    {
        Ok(MemSource {
            rest: Rest::new(content),
            calls: Calls::new(failing),
        })
    }
}

impl Source for MemSource {
    ghost left = { λ source. Some source.rest };

    ghost faults = { λ source. source.calls.faults };

    fn read(&mut self, buf: &mut [u8]) -> Result<usize, Failed>
        ensures bound { ReadsAtMost result buf.new }
        ensures bytes { ReadConsumes (Some self.old.rest) (Some self.new.rest) result buf.new }
        ensures empty { buf.old ≡ [] → result ≡ Ok 0 }
        ensures cause { HasCause self.old.calls.faults self.new.calls.faults (IsErr result) }
        ensures count { IfOk result (λ n. n ≡ min (length buf.old) (length self.old.rest)) }
        ensures failing { 0 < length buf.old → (IsErr result ↔ IsTrue (fails_next self.old.calls)) }
        ensures counted { 0 < length buf.old → self.new.calls ≡ after_call self.old.calls }
        ensures uncounted { buf.old ≡ [] → self.new ≡ self.old }
    {
        if buf.is_empty() {
            return Ok(0);
        }
        if self.calls.fails() {
            return Err(Failed);
        }
        Ok(self.rest.give(buf))
    }

    fn faults(&self) -> u64 {
        self.calls.faults()
    }
}
