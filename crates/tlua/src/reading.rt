ghost use Rattle.std.specs.Prelude.{◌≡◌};

use crate::retry::read_some;
use std::io::Read;
use tl_edge::{Failed, Source};

/// A reader as an input. It tells the bytes that are left where the reader does.
#[derive(Drop)]
pub struct Reading<R: Read + Drop> {
    reader: R,
    faults: u64,
}

impl<R: Read + Drop> Reading<R> {
    /// No call has failed yet.
    pub fn new(reader: R) -> Reading<R>
        ensures reader { result.reader ≡ reader }
        ensures faults { result.faults ≡ 0 }
    {
        Reading { reader, faults: 0 }
    }
}

impl<R: Read + Drop> Source for Reading<R> {
    ghost left = { λ input. R.remaining input.reader };

    ghost faults = { λ input. input.faults };

    fn read(&mut self, buf: &mut [u8]) -> Result<usize, Failed> {
        if buf.is_empty() {
            return Ok(0);
        }
        match read_some(&mut self.reader, buf) {
            Ok(count) => Ok(count),
            Err(_) => {
                self.faults = self.faults.saturating_add(1);
                Err(Failed)
            }
        }
    }

    fn faults(&self) -> u64 {
        self.faults
    }
}
