ghost use Rattle.std.specs.Prelude.{◌≡◌, ◌≤◌, min, length, take, drop};

use std::marker::Model;
use tl_base::Bytes;

/// Bytes of which a front was given; contracts see what is left.
#[derive(Debug, Drop)]
pub struct Rest {
    content: Bytes,
    given: usize,
}

impl Model for Rest {
    ghost use Rattle.std.specs.Prelude.{◌≤◌, ℕ, List, length, drop};

    ghost Value = { List ℕ };

    ghost view = { λ rest. drop rest.given rest.content };

    ghost invariant = { λ rest. rest.given ≤ length rest.content };
}

impl Rest {
    /// All these bytes are left.
    pub fn new(content: Bytes) -> Rest
        ensures { result ≡ content }
    {
        Rest { content, given: 0 }
    }

    /// Moves as many bytes as fit to the front of `buf`, and answers how many.
    pub fn give(&mut self, buf: &mut [u8]) -> usize
        ensures count { result ≡ min (length buf.old) (length self.old) }
        ensures bytes { take result buf.new ≡ take result self.old }
        ensures beyond { drop result buf.new ≡ drop result buf.old }
        ensures left { self.new ≡ drop result self.old }
    {
        let left = &self.content.as_slice()[self.given..];
        let count = buf.len().min(left.len());
        buf[..count].copy_from_slice(&left[..count]);
        self.given += count;
        count
    }
}
