ghost use Rattle.std.specs.Prelude.{◌≡◌, ◌<◌, ◌↔◌, true, false, Ok, IfOk, length};
ghost use Rattle.tl_types.specs.declared.types.Ty.TheVariants as ty;
ghost use Rattle.tl_types.specs.Below.{IsBelow};
ghost use Rattle.subtyping.specs.Pairs.{IsSound, Settled, Kept};

use crate::members::each_of;
use crate::{Assumed, NoMemory, Rules, Side, Ty};
use std::alloc::Global;

/// Takes pair `k` back if its comparison fails, and says whether it was.
fn settle<'a>(rules: Rules<'a>, assumed: &mut Assumed<'a>, k: usize) -> Result<bool, NoMemory>
    requires nil { rules.nil.now ≡ ty.Nil }
    requires within { k < length assumed.old.pairs.items }
    requires sound { IsSound rules.loose rules.bodies.now assumed.old.pairs.items }
    ensures { Settled rules.entry.loose rules.entry.bodies.now assumed.old.pairs.items assumed.new.pairs.items k result }
{
    let pair = assumed.pairs[k];
    if !pair.alive {
        return Ok(false);
    }
    if each_of(rules, assumed, pair.left, pair.right)? {
        return Ok(false);
    }
    assumed.pairs[k].alive = false;
    Ok(true)
}

/// Compares each assumed pair, those that are added meanwhile too, and says whether one was taken back.
fn sweep<'a>(rules: Rules<'a>, assumed: &mut Assumed<'a>) -> Result<bool, NoMemory>
    requires nil { rules.nil.now ≡ ty.Nil }
    requires sound { IsSound rules.loose rules.bodies.now assumed.old.pairs.items }
    ensures sound { IsSound rules.entry.loose rules.entry.bodies.now assumed.new.pairs.items }
    ensures closed { result ≡ Ok false → Kept rules.entry.loose rules.entry.bodies.now assumed.old.pairs.items assumed.new.pairs.items (length assumed.new.pairs.items) }
{
    let mut changed = false;
    let mut k = 0;
    while k < assumed.pairs.len() {
        if settle(rules, assumed, k)? {
            changed = true;
        }
        k += 1;
    }
    Ok(changed)
}

/// The same from the last pair on, since most pairs lean on later ones.
fn sweep_back<'a>(rules: Rules<'a>, assumed: &mut Assumed<'a>) -> Result<(), NoMemory>
    requires nil { rules.nil.now ≡ ty.Nil }
    requires sound { IsSound rules.loose rules.bodies.now assumed.old.pairs.items }
    ensures { IsSound rules.entry.loose rules.entry.bodies.now assumed.new.pairs.items }
{
    let mut k = assumed.pairs.len();
    while k > 0 {
        k -= 1;
        if k < assumed.pairs.len() {
            settle(rules, assumed, k)?;
        }
    }
    Ok(())
}

/// Whether one type is below the other to every depth.
pub(crate) fn decide<'a>(
    alloc: Global,
    rules: Rules<'a>,
    a: &'a Ty,
    b: &'a Ty,
) -> Result<bool, NoMemory>
    requires nil { rules.nil.now ≡ ty.Nil }
    ensures { IfOk result (λ yes. (yes ≡ true) ↔ IsBelow rules.entry.loose rules.entry.bodies.now a.now b.now) }
{
    let mut assumed = Assumed::new(alloc);
    for _ in 0..u64::MAX {
        if !each_of(rules, &mut assumed, Side::Of(a), Side::Of(b))? {
            return Ok(false);
        }
        if !sweep(rules, &mut assumed)? {
            return Ok(true);
        }
        sweep_back(rules, &mut assumed)?;
    }
    Err(NoMemory)
}
