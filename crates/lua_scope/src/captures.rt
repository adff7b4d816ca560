ghost use Rattle.std.specs.Prelude.{◌≡◌, ℕ, ◌<◌, [], Some, None, length, slice_index, if◌then◌else◌, OnOk, IfOk};
ghost use Rattle.lua_tree.specs.Scopes.Binding.{captured};

use indexmap::IndexSet;
use std::alloc::Global;
use std::marker::Model;
use tl_base::NoMemory;

/// How many locals of outer functions one function may capture.
const MOST: u32 = 255;

/// Which functions capture which locals of outer functions.
#[derive(Drop)]
pub struct Captures {
    /// a function's number and a local's, each pair once
    pairs: IndexSet<(u32, u32)>,
    /// how many locals each function captures, by the functions' numbers
    counts: Vec<u32>,
}

impl Model for Captures {
    ghost use Rattle.std.specs.Prelude.{◌≡◌, ℕ, List, slice_index};
    ghost use Rattle.lua_tree.specs.Scopes.Places.{Capture};
    ghost use Rattle.lua_tree.specs.Scopes.Binding.{captures_of};

    ghost Value = { List Capture };

    ghost view = { λ c. c.pairs.keys };

    ghost invariant = { λ c. (f : ℕ) → slice_index c.counts.items f ≡ captures_of f c.pairs.keys };
}

/// Counts are kept for a function too.
fn grow(counts: &mut Vec<u32>, function: usize) -> Result<(), NoMemory>
    ensures same { (f : ℕ) → slice_index counts.new.items f ≡ slice_index counts.old.items f }
    ensures kept { OnOk result (function < length counts.new.items) }
{
    while counts.len() <= function {
        counts.push(0)?;
    }
    Ok(())
}

impl Captures {
    /// No function captures anything. It takes no memory.
    pub fn new(alloc: Global) -> Captures
        ensures { result ≡ [] }
    {
        Captures {
            pairs: IndexSet::new(alloc),
            counts: Vec::new(alloc),
        }
    }

    /// A function captures a local. False where it would be one too many.
    pub fn capture(&mut self, function: u32, local: u32) -> Result<bool, NoMemory>
        ensures { IfOk result (λ fits. captured (function, local) self.old ≡ (if fits then Some self.new else None)) }
    {
        let pair = (function, local);
        if self.pairs.contains(&pair) {
            return Ok(true);
        }
        let at = function as usize;
        grow(&mut self.counts, at)?;
        let count = self.counts[at];
        if count >= MOST {
            return Ok(false);
        }
        self.pairs.insert(pair)?;
        self.counts[at] = count + 1;
        Ok(true)
    }
}
