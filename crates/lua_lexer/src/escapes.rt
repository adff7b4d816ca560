ghost use Rattle.std.specs.Prelude.{◌≡◌, ◌+◌, ◌*◌, ◌-◌, ◌<◌, ◌≤◌, [], ◌∷◌, ◌++◌, List, MatchOption, IfSome, OnOk, Option, Some, None, length, ℕ};
ghost use Rattle.lua_lexer.specs.Letters.{is_digit, is_hex_digit, hex_value};
ghost use Rattle.lua_lexer.specs.Strings.{escape, letter_escape, hex_escape, byte_escape, digits_from, code_point_from, unicode_escape, behind_blanks, utf8};
ghost use Rattle.lua_lexer.specs.Escaped.{meant, IsSmall};

use crate::letters::{hex_value, is_blank, is_digit, is_line_byte};
use crate::lines::{behind_line_byte, front};
use tl_base::{Bytes, NoMemory};

/// What an escape means: no byte, one, or those of a code point.
#[derive(Clone, Copy)]
pub(crate) enum Escaped {
    Nothing,
    Byte(u8),
    Point(u32),
}

/// The text behind the white space at its front.
fn behind_blanks(text: &[u8]) -> &[u8]
    ensures value { result.now ≡ behind_blanks text.now }
    ensures shorter { length result.now ≤ length text.now }
{
    let mut rest = text;
    while let Some((byte, tail)) = front(rest) {
        if !is_blank(byte) {
            return rest;
        }
        rest = tail;
    }
    rest
}

/// The byte that a backslash before this one means.
fn letter_escape(byte: u8) -> Option<u8>
    ensures { MatchOption result (letter_escape byte ≡ None) (λ b. letter_escape byte ≡ Some b) }
{
    match byte {
        b'a' => Some(7),
        b'b' => Some(8),
        b'f' => Some(12),
        b'n' => Some(10),
        b'r' => Some(13),
        b't' => Some(9),
        b'v' => Some(11),
        b'\\' | b'"' | b'\'' => Some(byte),
        _ => None,
    }
}

/// The byte of two hexadecimal digits, and what follows.
fn hex_escape(text: &[u8]) -> Option<(u8, &[u8])>
    ensures value { MatchOption result (hex_escape text.now ≡ None) (λ f. hex_escape text.now ≡ Some (f.0 ∷ [], f.1.now)) }
    ensures shorter { IfSome result (λ f. length f.1.now ≤ length text.now) }
{
    match front(text) {
        None => None,
        Some((first, tail)) => match front(tail) {
            None => None,
            Some((second, rest)) => match (hex_value(first), hex_value(second)) {
                (Some(high), Some(low)) => Some((16 * high + low, rest)),
                _ => None,
            },
        },
    }
}

/// The value of up to two more digits behind digits of this value, and what follows.
fn more_digits(first: u8, text: &[u8]) -> (u32, &[u8])
    requires { first < 10 }
    ensures value { digits_from 2 first text.now ≡ (result.0, result.1.now) }
    ensures shorter { length result.1.now ≤ length text.now }
    ensures small { result.0 < 1000 }
{
    let value = first as u32;
    match front(text) {
        None => (value, text),
        Some((second, tail)) => {
            if !is_digit(second) {
                return (value, text);
            }
            let value = 10 * value + (second - b'0') as u32;
            match front(tail) {
                None => (value, tail),
                Some((third, rest)) => {
                    if !is_digit(third) {
                        return (value, tail);
                    }
                    (10 * value + (third - b'0') as u32, rest)
                }
            }
        }
    }
}

/// The byte of one to three digits, of which the first is given, and what follows.
fn byte_escape(first: u8, text: &[u8]) -> Option<(u8, &[u8])>
    requires { first < 10 }
    ensures value { MatchOption result (byte_escape (digits_from 2 first text.now) ≡ None) (λ f. byte_escape (digits_from 2 first text.now) ≡ Some (f.0 ∷ [], f.1.now)) }
    ensures shorter { IfSome result (λ f. length f.1.now ≤ length text.now) }
{
    let (value, rest) = more_digits(first, text);
    if value <= 255 {
        Some((value as u8, rest))
    } else {
        None
    }
}

/// The code point of the hexadecimal digits behind digits of this value, and what follows its `}`.
fn code_point(first: u32, text: &[u8]) -> Option<(u32, &[u8])>
    requires { first < 1114112 }
    ensures value { MatchOption result (code_point_from first text.now ≡ None) (λ f. code_point_from first text.now ≡ Some (f.0, f.1.now)) }
    ensures shorter { IfSome result (λ f. length f.1.now < length text.now) }
    ensures small { IfSome result (λ f. f.0 < 1114112) }
{
    let mut value = first;
    let mut rest = text;
    while let Some((byte, tail)) = front(rest) {
        if byte == b'}' {
            return Some((value, tail));
        }
        match hex_value(byte) {
            None => return None,
            Some(digit) => {
                let next = 16 * value + digit as u32;
                if next > 1114111 {
                    return None;
                }
                value = next;
                rest = tail;
            }
        }
    }
    None
}

/// The code point between `{` and `}`, and what follows.
fn unicode_escape(text: &[u8]) -> Option<(u32, &[u8])>
    ensures value { MatchOption result (unicode_escape text.now ≡ None) (λ f. unicode_escape text.now ≡ Some (utf8 f.0, f.1.now)) }
    ensures shorter { IfSome result (λ f. length f.1.now ≤ length text.now) }
    ensures small { IfSome result (λ f. f.0 < 1114112) }
{
    match front(text) {
        None => None,
        Some((first, tail)) => {
            if first != b'{' {
                return None;
            }
            match front(tail) {
                None => None,
                Some((second, rest)) => match hex_value(second) {
                    None => None,
                    Some(digit) => code_point(digit as u32, rest),
                },
            }
        }
    }
}

/// What a backslash before the text means, and what follows the escape. `None`: it is no good escape.
pub(crate) fn escape(text: &[u8]) -> Option<(Escaped, &[u8])>
    ensures value { MatchOption result (escape text.now ≡ None) (λ f. escape text.now ≡ Some (meant f.0, f.1.now)) }
    ensures shorter { IfSome result (λ f. length f.1.now < length text.now) }
    ensures small { IfSome result (λ f. IsSmall f.0) }
{
    let Some((byte, tail)) = front(text) else {
        return None;
    };
    if byte == b'z' {
        return Some((Escaped::Nothing, behind_blanks(tail)));
    }
    if byte == b'x' {
        return match hex_escape(tail) {
            None => None,
            Some((value, rest)) => Some((Escaped::Byte(value), rest)),
        };
    }
    if byte == b'u' {
        return match unicode_escape(tail) {
            None => None,
            Some((point, rest)) => Some((Escaped::Point(point), rest)),
        };
    }
    if is_digit(byte) {
        return match byte_escape(byte - b'0', tail) {
            None => None,
            Some((value, rest)) => Some((Escaped::Byte(value), rest)),
        };
    }
    if is_line_byte(byte) {
        return Some((Escaped::Byte(b'\n'), behind_line_byte(byte, tail)));
    }
    match letter_escape(byte) {
        None => None,
        Some(value) => Some((Escaped::Byte(value), tail)),
    }
}

/// Puts the bytes of a code point at the end.
fn push_point(out: &mut Bytes, point: u32) -> Result<(), NoMemory>
    requires { point < 1114112 }
    ensures { OnOk result (out.new ≡ out.old ++ utf8 point) }
{
    if point < 128 {
        return out.push(point as u8);
    }
    let last = (128 + point % 64) as u8;
    if point < 2048 {
        return out.extend(&[(192 + point / 64) as u8, last]);
    }
    let third = (128 + point / 64 % 64) as u8;
    if point < 65536 {
        return out.extend(&[(224 + point / 4096) as u8, third, last]);
    }
    out.extend(&[
        (240 + point / 262144) as u8,
        (128 + point / 4096 % 64) as u8,
        third,
        last,
    ])
}

/// Puts what an escape means at the end.
pub(crate) fn push(out: &mut Bytes, escaped: Escaped) -> Result<(), NoMemory>
    requires { IsSmall escaped }
    ensures { OnOk result (out.new ≡ out.old ++ meant escaped) }
{
    match escaped {
        Escaped::Nothing => Ok(()),
        Escaped::Byte(byte) => out.push(byte),
        Escaped::Point(point) => push_point(out, point),
    }
}
