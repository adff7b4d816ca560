ghost use Rattle.std.specs.Prelude.{◌≡◌, ℕ, false, ◌==◌, ◌<◌, ◌≤◌, List, MatchOption, IfSome, length};
ghost use Rattle.lua_lexer.specs.Brackets.{Fence, Opens, Shuts, Closes, Unified, Meant};
ghost use Rattle.lua_lexer.specs.Reading.{NoFence, NeverOpens, NeverShuts, NeverCloses};

use crate::lines::front;

/// The number of `=` at the front that are before this byte, and what follows it.
fn fence(last: u8, text: &[u8]) -> Option<(usize, &[u8])>
    requires { (last == 61) ≡ false }
    ensures { MatchOption result (NoFence last text.now) (λ f. Fence last f.0 text.now f.1.now) }
{
    let mut count: usize = 0;
    let mut rest = text;
    while let Some((byte, tail)) = front(rest) {
        if byte == last {
            return Some((count, tail));
        }
        if byte != b'=' {
            return None;
        }
        count += 1;
        rest = tail;
    }
    None
}

/// The level of the long bracket that opens at the front, and what follows its opening.
pub(crate) fn opening(text: &[u8]) -> Option<(usize, &[u8])>
    ensures { MatchOption result (NeverOpens text.now) (λ f. Opens f.0 text.now f.1.now) }
{
    match front(text) {
        None => None,
        Some((byte, tail)) => {
            if byte == b'[' {
                fence(b'[', tail)
            } else {
                None
            }
        }
    }
}

/// What follows the closing bracket of the level at the front.
fn shutting(level: usize, text: &[u8]) -> Option<&[u8]>
    ensures { MatchOption result (NeverShuts level text.now) (λ r. Shuts level text.now r.now) }
{
    match front(text) {
        None => None,
        Some((byte, tail)) => {
            if byte != b']' {
                return None;
            }
            match fence(b']', tail) {
                None => None,
                Some((count, rest)) => { if count == level { Some(rest) } else { None } }
            }
        }
    }
}

/// From behind an opening bracket: the text before the first closing one of the level, and what follows that.
pub(crate) fn closing(level: usize, text: &[u8]) -> Option<(&[u8], &[u8])>
    ensures { MatchOption result (NeverCloses level text.now) (λ f. Closes level text.now f.0.now f.1.now) }
{
    let mut rest = text;
    while let Some((_byte, tail)) = front(rest) {
        if let Some(after) = shutting(level, rest) {
            return Some((&text[..text.len() - rest.len()], after));
        }
        rest = tail;
    }
    None
}
