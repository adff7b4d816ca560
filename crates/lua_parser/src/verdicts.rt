ghost use Rattle.std.specs.Prelude.{◌≡◌, ◌+◌, IfOk, IsTrue};
ghost use Rattle.lua_parser.specs.Words.{words_of};
ghost use Rattle.lua_parser.specs.Grammar.TooDeep.{limits};
ghost use Rattle.lua_parser.specs.Counting.Count.{count, start};
ghost use Rattle.lua_parser.specs.Counting.Most.{tells, passes, bar_of};
ghost use Rattle.lua_parser.specs.Counting.Verdict.{IsVerdict, IsSettled};

use crate::labels::HIGHEST;
use crate::seen::Seen;
use crate::signs::{Sign, Tuple};
use crate::tally::{Tally, above};
use lua_lexer::Token;
use std::alloc::Global;
use tl_base::NoMemory;

impl Tally {
    ghost use Rattle.std.specs.Prelude.{◌≡◌, OnOk};
    ghost use Rattle.lua_parser.specs.Counting.Count.{meet};

    /// The token meets what is expected.
    pub(crate) fn meet(&mut self, seen: &Seen<'_>) -> Result<(), NoMemory>
        ensures { OnOk result (self.new ≡ meet self.old.expected self.old.height seen.now self.old.reached) }
    {
        loop {
            let Some(sign) = self.expected.pop() else {
                return Ok(());
            };
            if self.meet_sign(sign, seen)? {
                return Ok(());
            }
        }
    }
}

/// Counts the tokens of a source.
pub(crate) fn count(alloc: Global, source: &[u8], tokens: &[Token]) -> Result<Tally, NoMemory>
    ensures { IfOk result (λ t. t ≡ count (words_of source.now tokens.now) start) }
{
    let mut tally = Tally::new(alloc)?;
    for token in tokens {
        let seen = Seen { source, token };
        tally.meet(&seen)?;
        tally.reached.take(&seen)?;
    }
    Ok(tally)
}

/// The first of the tokens that is over the limits, if one is; want of memory where what follows these tokens may yet tell.
pub(crate) fn verdict(
    alloc: Global,
    source: &[u8],
    tokens: &[Token],
) -> Result<Option<usize>, NoMemory>
    ensures { IfOk result (λ v. IsVerdict limits (words_of source.now tokens.now) v) }
{
    let tally = count(alloc, source, tokens)?;
    let first = tally.reached.first_over();
    let later = tally.may_rise()?;
    if is_settled(first, tokens.len(), later) {
        Ok(first)
    } else {
        Err(NoMemory)
    }
}

/// Whether nothing that follows so many tokens makes an earlier one than this the first over the limits, where their last ones may rise so high.
fn is_settled(first: Option<usize>, tokens: usize, later: u32) -> bool
    ensures { IsTrue result → IsSettled first tokens later }
{
    match first {
        Some(number) if number.saturating_add(1) < tokens => true,
        _ => later <= HIGHEST,
    }
}

impl Tally {
    ghost use Rattle.std.specs.Prelude.{◌≡◌, IfOk};
    ghost use Rattle.lua_parser.specs.Counting.Most.{rise};

    /// How high what ends with the last token, or with the one before it, may yet be.
    fn may_rise(self) -> Result<u32, NoMemory>
        ensures { IfOk result (λ h. h ≡ rise self.expected self.height) }
    {
        let mut rest = self.expected;
        let mut read_last = Some(self.height);
        let mut most = 0;
        loop {
            let Some(sign) = rest.pop() else {
                return Ok(most);
            };
            if let Some(height) = read_last {
                most = most.max(told(sign, height)?);
                read_last = passed(sign, height)?;
            }
            most = most.max(bar(sign)?);
        }
    }
}

/// How high a sign tells that what was read last is, where that is so high.
fn told(sign: Sign, height: u32) -> Result<u32, NoMemory>
    ensures { IfOk result (λ h. h ≡ tells sign height) }
{
    match sign {
        Sign::Note
        | Sign::Operations(_)
        | Sign::Suffixes
        | Sign::BehindNameIn(_)
        | Sign::Path
        | Sign::BehindName(_)
        | Sign::RestOfStat
        | Sign::MaybeMark
        | Sign::NamedInBraces => Ok(height),
        Sign::MoreBars(others) | Sign::EndOfFunction(others) => above(others, height),
        Sign::BehindItems(Tuple::OfMember, items) => one_more(items),
        Sign::BehindItems(Tuple::OfResults(params), items) => above(params, items),
        _ => Ok(0),
    }
}

/// How high that is behind a sign with which no token need be taken.
fn passed(sign: Sign, height: u32) -> Result<Option<u32>, NoMemory>
    ensures { IfOk result (λ h. h ≡ passes sign height) }
{
    match sign {
        Sign::Begin
        | Sign::Leave
        | Sign::Note
        | Sign::Operations(_)
        | Sign::Suffixes
        | Sign::ReturnValues
        | Sign::Outcome
        | Sign::MoreNames
        | Sign::BehindName(_)
        | Sign::RestOfStat
        | Sign::Bar
        | Sign::MaybeMark
        | Sign::Dots
        | Sign::BehindItems(Tuple::OfBody, _) => Ok(Some(height)),
        Sign::LeaveBody => Ok(Some(1)),
        Sign::ABlock | Sign::MaybeSemicolon => Ok(Some(0)),
        Sign::MoreExprs(others) => Ok(Some(others.max(height))),
        Sign::Up => Ok(Some(one_more(height)?)),
        Sign::Grow(others) | Sign::MoreBars(others) | Sign::EndOfFunction(others) => {
            Ok(Some(above(others, height)?))
        }
        Sign::BehindItems(Tuple::OfMember, items) => Ok(Some(one_more(items)?)),
        Sign::BehindItems(Tuple::OfResults(params), items) => Ok(Some(above(params, items)?)),
        _ => Ok(None),
    }
}

/// How high a sign tells that what ended with the token before the last is.
fn bar(sign: Sign) -> Result<u32, NoMemory>
    ensures { IfOk result (λ h. h ≡ bar_of sign) }
{
    match sign {
        Sign::BehindBar(params, items) => above(params, items),
        _ => Ok(0),
    }
}

fn one_more(height: u32) -> Result<u32, NoMemory>
    ensures { IfOk result (λ h. h ≡ height + 1) }
{
    height.checked_add(1).ok_or(NoMemory)
}
