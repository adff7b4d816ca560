ghost use Rattle.std.specs.Prelude.{◌≡◌, true};
ghost use Rattle.tl_edge.specs.Calls.{no_call, fails_next, after_call};
ghost use Rattle.tl_edge.specs.Edge.{HasCause};

use tl_base::List;

/// The calls of an object in memory: which of them fail, and how many were made and have failed.
#[derive(Debug, Drop)]
pub struct Calls {
    failing: List<u64>,
    made: u64,
    faults: u64,
}

impl Calls {
    /// No call was made yet; those with these numbers, from 1, are to fail.
    pub fn new(failing: List<u64>) -> Calls
        ensures { result ≡ no_call failing }
    {
        Calls {
            failing,
            made: 0,
            faults: 0,
        }
    }

    /// How many calls have failed.
    pub fn faults(&self) -> u64
        ensures { result ≡ self.now.faults }
    {
        self.faults
    }

    /// Counts one more call, and answers whether it fails.
    pub fn fails(&mut self) -> bool
        ensures listed { result ≡ fails_next self.old }
        ensures counted { self.new ≡ after_call self.old }
        ensures cause { HasCause self.old.faults self.new.faults (result ≡ true) }
    {
        self.made = self.made.saturating_add(1);
        let fails = self.failing.as_slice().contains(&self.made);
        if fails {
            self.faults = self.faults.saturating_add(1);
        }
        fails
    }
}
