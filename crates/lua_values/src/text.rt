ghost use Rattle.std.specs.Prelude.{◌≡◌, ℕ, List, nat_eq, IfOk};
ghost use Rattle.std.specs.Rc.{rc_slice_items};
ghost use Rattle.std.specs.Cmp.{partial_equiv_from_equiv};
ghost use Rattle.std.specs.Cmp.Lexicographic.{pointwise};
ghost use Rattle.std.proofs.lemmas.Cmp.{nat_list_eq_equiv};
ghost use Rattle.lua_values.specs.Texts.{text_writes, text_alike};

use std::alloc::Global;
use std::hash::{Hash, Hasher};
use std::marker::Model;
use std::rc::RcSlice;
use tl_base::NoMemory;

/// A string of any bytes, which contracts see as the list of its bytes. Its holders share the bytes.
#[derive(Debug, Drop)]
pub struct Text {
    bytes: RcSlice<u8>,
}

impl Model for Text {
    ghost Value = { List ℕ };

    ghost view = { λ t. rc_slice_items t.bytes };
}

impl Text {
    /// The text of these bytes, which are copied.
    pub fn new(alloc: Global, bytes: &[u8]) -> Result<Text, NoMemory>
        ensures { IfOk result (λ text. text ≡ bytes.now) }
    {
        let bytes = RcSlice::from_slice(alloc, bytes)?;
        Ok(Text { bytes })
    }

    /// The bytes, lent.
    pub fn bytes(&self) -> &[u8]
        ensures { result.now ≡ self.now }
    {
        self.bytes.as_slice()
    }

    /// A second holder of the same bytes, which aren't copied. It wants memory only where they have too many holders to count.
    pub fn share(&self) -> Result<Text, NoMemory>
        ensures { IfOk result (λ text. text ≡ self.now) }
    {
        let bytes = self.bytes.clone()?;
        Ok(Text { bytes })
    }
}

impl PartialEq for Text {
    ghost eq = { pointwise nat_eq };

    ghost laws = { partial_equiv_from_equiv nat_list_eq_equiv };

    fn eq(&self, other: &Self) -> bool {
        self.bytes() == other.bytes()
    }
}

impl Eq for Text {
    ghost laws = { nat_list_eq_equiv };
}

impl Hash for Text {
    ghost hash_input = { text_writes };

    ghost respects_eq = { text_alike };

    fn hash<H: Hasher>(&self, state: &mut H) {
        state.write(self.bytes());
    }
}
