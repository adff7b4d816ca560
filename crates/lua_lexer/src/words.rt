ghost use Rattle.std.specs.Prelude.{◌≡◌, ◌≤◌, ◌≢◌, MatchOption, length};
ghost use Rattle.lua_lexer.specs.Reading.{behind_word};
ghost use Rattle.lua_lexer.specs.Spellings.{letters};
ghost use Rattle.lua_lexer.specs.declared.token.Keyword.{Keyword};

use crate::Keyword;
use crate::letters::is_word_byte;
use crate::lines::front;

/// What follows the letters, digits and `_` at the front.
pub(crate) fn behind_word(text: &[u8]) -> &[u8]
    ensures value { result.now ≡ behind_word text.now }
    ensures shorter { length result.now ≤ length text.now }
{
    let mut rest = text;
    while let Some((byte, tail)) = front(rest) {
        if !is_word_byte(byte) {
            return rest;
        }
        rest = tail;
    }
    rest
}

/// The keyword of two letters that is spelled so.
fn of_two(word: &[u8]) -> Option<Keyword>
    ensures { MatchOption result ((w : Keyword) → length (letters w) ≡ 2 → word.now ≢ letters w) (λ w. word.now ≡ letters w) }
{
    if word == b"do".as_slice() {
        return Some(Keyword::Do);
    }
    if word == b"if".as_slice() {
        return Some(Keyword::If);
    }
    if word == b"in".as_slice() {
        return Some(Keyword::In);
    }
    if word == b"or".as_slice() {
        return Some(Keyword::Or);
    }
    None
}

/// The keyword of three letters that is spelled so.
fn of_three(word: &[u8]) -> Option<Keyword>
    ensures { MatchOption result ((w : Keyword) → length (letters w) ≡ 3 → word.now ≢ letters w) (λ w. word.now ≡ letters w) }
{
    if word == b"and".as_slice() {
        return Some(Keyword::And);
    }
    if word == b"end".as_slice() {
        return Some(Keyword::End);
    }
    if word == b"for".as_slice() {
        return Some(Keyword::For);
    }
    if word == b"nil".as_slice() {
        return Some(Keyword::Nil);
    }
    if word == b"not".as_slice() {
        return Some(Keyword::Not);
    }
    None
}

/// The keyword of four letters that is spelled so.
fn of_four(word: &[u8]) -> Option<Keyword>
    ensures { MatchOption result ((w : Keyword) → length (letters w) ≡ 4 → word.now ≢ letters w) (λ w. word.now ≡ letters w) }
{
    if word == b"else".as_slice() {
        return Some(Keyword::Else);
    }
    if word == b"goto".as_slice() {
        return Some(Keyword::Goto);
    }
    if word == b"then".as_slice() {
        return Some(Keyword::Then);
    }
    if word == b"true".as_slice() {
        return Some(Keyword::True);
    }
    None
}

/// The keyword of five letters that is spelled so.
fn of_five(word: &[u8]) -> Option<Keyword>
    ensures { MatchOption result ((w : Keyword) → length (letters w) ≡ 5 → word.now ≢ letters w) (λ w. word.now ≡ letters w) }
{
    if word == b"break".as_slice() {
        return Some(Keyword::Break);
    }
    if word == b"false".as_slice() {
        return Some(Keyword::False);
    }
    if word == b"local".as_slice() {
        return Some(Keyword::Local);
    }
    if word == b"until".as_slice() {
        return Some(Keyword::Until);
    }
    if word == b"while".as_slice() {
        return Some(Keyword::While);
    }
    None
}

/// The keyword of six letters that is spelled so.
fn of_six(word: &[u8]) -> Option<Keyword>
    ensures { MatchOption result ((w : Keyword) → length (letters w) ≡ 6 → word.now ≢ letters w) (λ w. word.now ≡ letters w) }
{
    if word == b"elseif".as_slice() {
        return Some(Keyword::Elseif);
    }
    if word == b"repeat".as_slice() {
        return Some(Keyword::Repeat);
    }
    if word == b"return".as_slice() {
        return Some(Keyword::Return);
    }
    None
}

/// The keyword of eight letters that is spelled so.
fn of_eight(word: &[u8]) -> Option<Keyword>
    ensures { MatchOption result ((w : Keyword) → length (letters w) ≡ 8 → word.now ≢ letters w) (λ w. word.now ≡ letters w) }
{
    if word == b"function".as_slice() {
        return Some(Keyword::Function);
    }
    None
}

/// The keyword that is spelled so.
pub(crate) fn keyword(word: &[u8]) -> Option<Keyword>
    ensures { MatchOption result ((w : Keyword) → word.now ≢ letters w) (λ w. word.now ≡ letters w) }
{
    match word.len() {
        2 => of_two(word),
        3 => of_three(word),
        4 => of_four(word),
        5 => of_five(word),
        6 => of_six(word),
        8 => of_eight(word),
        _ => None,
    }
}
