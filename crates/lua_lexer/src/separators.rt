ghost use Rattle.std.specs.Prelude.{◌≡◌, ◌<◌, MatchOption, IfSome, length};
ghost use Rattle.lua_lexer.specs.Tokens.{Separator, Skips};
ghost use Rattle.lua_lexer.specs.Reading.{NoSeparator, Comment, NoComment};

use crate::brackets::{closing, opening};
use crate::letters::is_blank;
use crate::lines::{front, to_line_end};

/// What follows a comment, from behind its `--`. A long bracket that is opened and not closed is no comment.
fn comment(text: &[u8]) -> Option<&[u8]>
    ensures { MatchOption result (NoComment text.now) (λ r. Comment text.now r.now) }
{
    match opening(text) {
        None => Some(to_line_end(text)),
        Some((level, inside)) => match closing(level, inside) {
            None => None,
            Some((_, rest)) => Some(rest),
        },
    }
}

/// What follows the white space or comment at the front.
fn separator(text: &[u8]) -> Option<&[u8]>
    ensures { MatchOption result (NoSeparator text.now) (λ r. Separator text.now r.now) }
{
    match front(text) {
        None => None,
        Some((first, tail)) => {
            if is_blank(first) {
                return Some(tail);
            }
            if first != b'-' {
                return None;
            }
            match front(tail) {
                None => None,
                Some((second, rest)) => { if second == b'-' { comment(rest) } else { None } }
            }
        }
    }
}

/// What follows all separators at the front.
pub(crate) fn skip(text: &[u8]) -> &[u8]
    ensures { Skips text.now result.now }
{
    let mut rest = text;
    while let Some(next) = separator(rest) {
        rest = next;
    }
    rest
}
