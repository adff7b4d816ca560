ghost use Rattle.std.specs.Prelude.{◌≡◌, ◌<◌, true, Bool, length, slice_get, Some, OnSome, IfSome};
ghost use Rattle.tl_types.specs.Types.{Bodies};
ghost use Rattle.subtyping.specs.declared.pairs.Pair.{Pair};
ghost use Rattle.subtyping.specs.Pairs.{side_ty, Compared, IsPairAt};

use crate::marks::pair_mark;
use crate::{NoMemory, Ty};
use std::alloc::Global;
use std::collections::HashMap;
use tl_base::List;
use tl_types::{Field, same};

/// A type that stands in the given ones, or the union of such a type and `nil`, which a place of a tuple past its list has.
#[derive(Clone, Copy)]
pub(crate) enum Side<'a> {
    Of(&'a Ty),
    WithNil(&'a Ty),
}

/// Two types, of which the left one is assumed to be below the right one.
#[derive(Clone, Copy)]
pub(crate) struct Pair<'a> {
    pub left: Side<'a>,
    pub right: Side<'a>,
    /// Whether it is still assumed.
    pub alive: bool,
    /// An earlier pair with the same mark, if there is one.
    pub earlier: Option<usize>,
}

/// What a comparison is given beside the two types.
#[derive(Clone, Copy)]
pub(crate) struct Rules<'a> {
    /// Whether `any` is below every type.
    pub loose: bool,
    pub bodies: &'a [List<Field>],
    /// The type `nil`.
    pub nil: &'a Ty,
}

/// The pairs that were met, in that order, and the latest one of each mark.
#[derive(Drop)]
pub(crate) struct Assumed<'a> {
    pub pairs: Vec<Pair<'a>>,
    pub latest: HashMap<u64, usize>,
}

impl<'a> Assumed<'a> {
    pub(crate) fn new(alloc: Global) -> Assumed<'a>
        ensures { length result.pairs.items ≡ 0 }
    {
        Assumed {
            pairs: Vec::new(alloc),
            latest: HashMap::new(alloc),
        }
    }

    // Where the pair of these sides stands.
    fn find(&self, mark: u64, left: Side<'a>, right: Side<'a>) -> Option<usize>
        ensures { IfSome result (IsPairAt self.now.pairs.items left.entry right.entry) }
    {
        let mut next = self.latest.get(&mark).copied();
        for _ in 0..self.pairs.len() {
            let at = next?;
            let pair = self.pairs.get(at)?;
            if same_side(pair.left, left) && same_side(pair.right, right) {
                return Some(at);
            }
            next = pair.earlier;
        }
        None
    }
}

/// Whether the pair is assumed, as it is from now on if it is new.
pub(crate) fn assume<'a>(
    assumed: &mut Assumed<'a>,
    left: Side<'a>,
    right: Side<'a>,
) -> Result<bool, NoMemory>
    ensures { (loose : Bool) (bodies : Bodies) → Compared loose bodies assumed.old.pairs.items assumed.new.pairs.items (λ R. R (side_ty left.entry) (side_ty right.entry)) result }
{
    let mark = pair_mark(left, right);
    if let Some(at) = assumed.find(mark, left, right) {
        return Ok(assumed.pairs[at].alive);
    }
    let earlier = assumed.latest.insert(mark, assumed.pairs.len())?;
    assumed.pairs.push(Pair {
        left,
        right,
        alive: true,
        earlier,
    })?;
    Ok(true)
}

// Whether two sides stand for the same type.
fn same_side(a: Side, b: Side) -> bool
    ensures { result ≡ true → side_ty a.entry ≡ side_ty b.entry }
{
    match (a, b) {
        (Side::Of(s), Side::Of(t)) => same(s, t),
        (Side::WithNil(s), Side::WithNil(t)) => same(s, t),
        _ => false,
    }
}
