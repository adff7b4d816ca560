ghost use Rattle.std.specs.Prelude.{◌≡◌, [], ◌∷◌, MatchOption};
ghost use Rattle.lua_lexer.specs.Reading.{SignAt, NoSign, IsDotted};
ghost use Rattle.lua_lexer.specs.declared.token.Symbol.{Symbol};
ghost use Rattle.lua_lexer.specs.Spellings.{spelling};

use crate::Symbol;
use crate::lines::front;

/// The symbol that this byte spells.
fn of_one(first: u8) -> Option<Symbol>
    ensures { MatchOption result ((s : Symbol) → spelling s ≡ first ∷ [] → ⊥) (λ s. spelling s ≡ first ∷ []) }
{
    match first {
        b'+' => Some(Symbol::Plus),
        b'-' => Some(Symbol::Minus),
        b'*' => Some(Symbol::Star),
        b'/' => Some(Symbol::Slash),
        b'%' => Some(Symbol::Percent),
        b'^' => Some(Symbol::Caret),
        b'#' => Some(Symbol::Hash),
        b'&' => Some(Symbol::Ampersand),
        b'~' => Some(Symbol::Tilde),
        b'|' => Some(Symbol::Pipe),
        b'<' => Some(Symbol::Less),
        b'>' => Some(Symbol::Greater),
        b'=' => Some(Symbol::Assign),
        b'(' => Some(Symbol::OpenParen),
        b')' => Some(Symbol::CloseParen),
        b'{' => Some(Symbol::OpenBrace),
        b'}' => Some(Symbol::CloseBrace),
        b'[' => Some(Symbol::OpenBracket),
        b']' => Some(Symbol::CloseBracket),
        b';' => Some(Symbol::Semicolon),
        b':' => Some(Symbol::Colon),
        b',' => Some(Symbol::Comma),
        b'.' => Some(Symbol::Dot),
        b'?' => Some(Symbol::Question),
        _ => None,
    }
}

/// The symbol that these two bytes spell.
fn of_two(first: u8, second: u8) -> Option<Symbol>
    ensures { MatchOption result ((s : Symbol) → spelling s ≡ first ∷ second ∷ [] → ⊥) (λ s. spelling s ≡ first ∷ second ∷ []) }
{
    match (first, second) {
        (b'<', b'<') => Some(Symbol::ShiftLeft),
        (b'>', b'>') => Some(Symbol::ShiftRight),
        (b'/', b'/') => Some(Symbol::DoubleSlash),
        (b'=', b'=') => Some(Symbol::Equal),
        (b'~', b'=') => Some(Symbol::NotEqual),
        (b'<', b'=') => Some(Symbol::LessEqual),
        (b'>', b'=') => Some(Symbol::GreaterEqual),
        (b':', b':') => Some(Symbol::DoubleColon),
        (b'.', b'.') => Some(Symbol::Concat),
        (b'-', b'>') => Some(Symbol::Arrow),
        _ => None,
    }
}

/// The longer symbol, where two dots are before a third.
fn dotted(symbol: Symbol, text: &[u8]) -> (Symbol, &[u8])
    ensures { IsDotted symbol text.now result.0 result.1.now }
{
    match front(text) {
        None => (symbol, text),
        Some((byte, rest)) => {
            if byte == b'.' && symbol == Symbol::Concat {
                (Symbol::Dots, rest)
            } else {
                (symbol, text)
            }
        }
    }
}

/// The symbol of one byte before a text.
fn single(first: u8, text: &[u8]) -> Option<(Symbol, &[u8])>
    ensures { MatchOption result ((s : Symbol) → spelling s ≡ first ∷ [] → ⊥) (λ f. (spelling f.0 ≡ first ∷ []) × (f.1.now ≡ text.now)) }
{
    match of_one(first) {
        None => None,
        Some(symbol) => Some((symbol, text)),
    }
}

/// The longest symbol at the front, and what follows.
pub(crate) fn sign(text: &[u8]) -> Option<(Symbol, &[u8])>
    ensures { MatchOption result (NoSign text.now) (λ f. SignAt text.now f.0 f.1.now) }
{
    match front(text) {
        None => None,
        Some((first, tail)) => match front(tail) {
            None => single(first, tail),
            Some((second, rest)) => match of_two(first, second) {
                None => single(first, tail),
                Some(symbol) => Some(dotted(symbol, rest)),
            },
        },
    }
}
