ghost use Rattle.std.specs.Prelude.{◌≡◌, ◌<◌, ◌-◌, ◌↔◌, IsTrue};

/// The budget of a run: how many turns are left. A function's start, a loop's turn and a metamethod's call take one each.
#[derive(Clone, Copy, Debug, PartialEq, Eq)]
pub struct Turns {
    pub left: u64,
}

impl Turns {
    /// Takes one turn, if one is left.
    pub fn take(&mut self) -> bool
        ensures taken { IsTrue result ↔ (0 < self.old.left) }
        ensures left { self.new.left ≡ self.old.left - 1 }
    {
        if self.left == 0 {
            return false;
        }
        self.left -= 1;
        true
    }
}
