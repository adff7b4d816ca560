ghost use Rattle.std.specs.Prelude.{◌≡◌, ℕ, List, slice_get, IfOk};
ghost use Rattle.std.specs.Option.{option_copied};
ghost use Rattle.std.specs.Rc.{rc_slice_items};

use std::marker::Model;
use std::rc::RcSlice;
use tl_base::NoMemory;

/// The numbers of the cells that a closure captured, which contracts see as their list. Its holders share them.
#[derive(Drop)]
pub struct Cells {
    numbers: RcSlice<u64>,
}

impl Model for Cells {
    ghost Value = { List ℕ };

    ghost view = { λ c. rc_slice_items c.numbers };
}

impl Cells {
    /// The cells of these numbers.
    pub fn new(numbers: Vec<u64>) -> Result<Cells, NoMemory>
        ensures { IfOk result (λ cells. cells ≡ numbers.items) }
    {
        let numbers = RcSlice::from_vec(numbers)?;
        Ok(Cells { numbers })
    }

    /// A second holder of the same numbers, which aren't copied.
    #[inline(always)]
    pub fn share(&self) -> Result<Cells, NoMemory>
        ensures { IfOk result (λ cells. cells ≡ self.now) }
    {
        let numbers = self.numbers.clone()?;
        Ok(Cells { numbers })
    }

    /// The number at an index from 0, or `None` past the end.
    #[inline(always)]
    pub fn get(&self, at: u64) -> Option<u64>
        ensures { result ≡ slice_get self.now at }
    {
        self.numbers.as_slice().get(at as usize).copied()
    }
}

/// A closure, which contracts see as the code's run has it: the number of its function, and the cells that it captured.
#[derive(Drop)]
pub struct Closure {
    pub function: u64,
    pub cells: Cells,
}

impl Model for Closure {
    ghost use Rattle.lua_code.specs.Configurations.{CodeClosure};

    ghost Value = { CodeClosure };

    ghost view = { λ c. record { function = c.function; cells = c.cells } };
}
