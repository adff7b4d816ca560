ghost use Rattle.std.specs.Prelude.{◌≡◌, ◌+◌, ◌^◌, ◌<◌, [], ◌∷◌, MatchOption, length};
ghost use Rattle.lua_lexer.specs.Lines.{behind_line_byte, behind_line_end, to_line_end, one_on, further_on, first_spot};

use crate::letters::is_line_byte;
use tl_base::Pos;

/// The first byte and what follows it.
pub(crate) fn front(text: &[u8]) -> Option<(u8, &[u8])>
    ensures { MatchOption result (text.now ≡ []) (λ f. text.now ≡ f.0 ∷ f.1.now) }
{
    match text {
        [] => None,
        [byte, rest @ ..] => Some((*byte, rest)),
    }
}

/// What follows a line end that has begun with this byte before the text.
pub(crate) fn behind_line_byte(first: u8, text: &[u8]) -> &[u8]
    ensures { result.now ≡ behind_line_byte first text.now }
{
    match front(text) {
        None => text,
        Some((byte, rest)) => {
            if is_line_byte(byte) && first != byte {
                rest
            } else {
                text
            }
        }
    }
}

/// What follows the line end at the front.
pub(crate) fn behind_line_end(text: &[u8]) -> Option<&[u8]>
    ensures { MatchOption result (behind_line_end text.now ≡ None) (λ r. behind_line_end text.now ≡ Some r.now) }
{
    match front(text) {
        None => None,
        Some((byte, rest)) => {
            if is_line_byte(byte) {
                Some(behind_line_byte(byte, rest))
            } else {
                None
            }
        }
    }
}

/// The text from its first line end on.
pub(crate) fn to_line_end(text: &[u8]) -> &[u8]
    ensures { result.now ≡ to_line_end text.now }
{
    let mut rest = text;
    while let Some((byte, tail)) = front(rest) {
        if is_line_byte(byte) {
            return rest;
        }
        rest = tail;
    }
    rest
}

/// Where a text ends: line and column, each from 1, and the byte of a line end which one of the other kind would go on with,
/// or 0.
#[derive(Clone, Copy)]
pub(crate) struct Spot {
    pub(crate) line: u32,
    pub(crate) column: u32,
    pub(crate) half: u8,
}

impl Spot {
    /// The first place of a file.
    pub(crate) fn first() -> Spot
        ensures { result ≡ first_spot }
    {
        Spot {
            line: 1,
            column: 1,
            half: 0,
        }
    }

    /// The place in the file of this number.
    pub(crate) fn pos(self, module: u32) -> Pos
        ensures { result ≡ record { «module» = «module»; line = self.line; column = self.column } }
    {
        Pos {
            module,
            line: self.line,
            column: self.column,
        }
    }

    /// The place one byte on.
    fn one_on(self, byte: u8) -> Spot
        requires line { self.line + 1 < 2 ^ 32 }
        requires column { self.column + 1 < 2 ^ 32 }
        ensures { result ≡ one_on self byte }
    {
        if !is_line_byte(byte) {
            return Spot {
                line: self.line,
                column: self.column + 1,
                half: 0,
            };
        }
        if (self.half == b'\r' && byte == b'\n') || (self.half == b'\n' && byte == b'\r') {
            return Spot {
                line: self.line,
                column: 1,
                half: 0,
            };
        }
        Spot {
            line: self.line + 1,
            column: 1,
            half: byte,
        }
    }

    /// The place behind these bytes.
    pub(crate) fn further_on(self, text: &[u8]) -> Spot
        requires line { self.line + length text.now < 2 ^ 31 }
        requires column { self.column + length text.now < 2 ^ 31 }
        ensures { result ≡ further_on self text.now }
    {
        let mut spot = self;
        let mut rest = text;
        while let Some((byte, tail)) = front(rest) {
            spot = spot.one_on(byte);
            rest = tail;
        }
        spot
    }
}
