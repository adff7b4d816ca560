ghost use Rattle.std.specs.Prelude.{◌≡◌, ℕ, ◌<◌, ◌≤◌, ◌%◌, ◌^◌, ℤ, option_and_then, MatchOption, IfSome, Option, FitsSigned, length};
ghost use mir.Syntax.{w64};
ghost use Rattle.lua_lexer.specs.Numerals.{is_hexadecimal, begins_with_digit, is_exponent_mark, in_numeral, decimal_value, hexadecimal_value, in_range, two_complement, digits_integer, behind_two, integer_of};
ghost use Rattle.lua_lexer.specs.Reading.{behind_numeral};

use crate::letters::{hex_value, is_digit, is_word_byte};
use crate::lines::front;

/// Whether `0x` or `0X` is at the front.
pub(crate) fn is_hexadecimal(text: &[u8]) -> bool
    ensures { result ≡ is_hexadecimal text.now }
{
    match text {
        [first, second, ..] => *first == b'0' && (*second == b'x' || *second == b'X'),
        _ => false,
    }
}

/// Whether a digit is at the front.
pub(crate) fn begins_with_digit(text: &[u8]) -> bool
    ensures { result ≡ begins_with_digit text.now }
{
    match front(text) {
        None => false,
        Some((byte, _)) => is_digit(byte),
    }
}

/// Whether a sign goes on a numeral directly after the byte.
fn is_exponent_mark(hexadecimal: bool, byte: u8) -> bool
    ensures { result ≡ is_exponent_mark hexadecimal byte }
{
    if hexadecimal {
        byte == b'p' || byte == b'P'
    } else {
        byte == b'e' || byte == b'E'
    }
}

/// Whether a numeral goes on with the byte behind this last one.
fn in_numeral(hexadecimal: bool, last: u8, byte: u8) -> bool
    ensures { result ≡ in_numeral hexadecimal last byte }
{
    is_word_byte(byte)
        || byte == b'.'
        || ((byte == b'+' || byte == b'-') && is_exponent_mark(hexadecimal, last))
}

/// What follows the bytes at the front that go on a numeral with this last byte.
pub(crate) fn behind_numeral(hexadecimal: bool, last: u8, text: &[u8]) -> &[u8]
    ensures value { result.now ≡ behind_numeral hexadecimal last text.now }
    ensures shorter { length result.now ≤ length text.now }
{
    let mut before = last;
    let mut rest = text;
    while let Some((byte, tail)) = front(rest) {
        if !in_numeral(hexadecimal, before, byte) {
            return rest;
        }
        before = byte;
        rest = tail;
    }
    rest
}

/// The value of decimal digits, if it is below 2^63.
fn decimal(text: &[u8]) -> Option<u64>
    ensures value { MatchOption result (option_and_then in_range (decimal_value 0 text.now) ≡ None) (λ v. decimal_value 0 text.now ≡ Some v) }
    ensures below { IfSome result (λ v. v < 2 ^ 63) }
{
    let mut value: u64 = 0;
    let mut rest = text;
    while let Some((byte, tail)) = front(rest) {
        if !is_digit(byte) {
            return None;
        }
        if value > 922337203685477580 {
            return None;
        }
        let next = 10 * value + (byte - b'0') as u64;
        if next > 9223372036854775807 {
            return None;
        }
        value = next;
        rest = tail;
    }
    Some(value)
}

/// The value of hexadecimal digits, modulo 2^64.
fn hexadecimal(text: &[u8]) -> Option<u64>
    ensures { MatchOption result (hexadecimal_value 0 text.now ≡ None) (λ v. (n : ℕ) × (n % 2 ^ 64 ≡ v) × (hexadecimal_value 0 text.now ≡ Some n)) }
{
    let mut value: u64 = 0;
    let mut rest = text;
    while let Some((byte, tail)) = front(rest) {
        match hex_value(byte) {
            None => return None,
            Some(digit) => {
                value = 16 * (value % 1152921504606846976) + digit as u64;
                rest = tail;
            }
        }
    }
    Some(value)
}

/// The integer in two's complement.
fn two_complement(value: u64) -> i64
    ensures { result ≡ two_complement value }
{
    if value < 9223372036854775808 {
        value as i64
    } else {
        -((u64::MAX - value) as i64) - 1
    }
}

/// The integer of hexadecimal digits, of which there is one at least.
fn digits_integer(text: &[u8]) -> Option<i64>
    ensures { result ≡ digits_integer text.now }
{
    match front(text) {
        None => None,
        Some(_) => match hexadecimal(text) {
            None => None,
            Some(value) => Some(two_complement(value)),
        },
    }
}

/// The text without its first two bytes.
fn behind_two(text: &[u8]) -> &[u8]
    ensures { result.now ≡ behind_two text.now }
{
    match front(text) {
        None => text,
        Some((_, tail)) => match front(tail) {
            None => tail,
            Some((_, rest)) => rest,
        },
    }
}

/// The integer of a numeral.
pub(crate) fn integer(numeral: &[u8]) -> Option<i64>
    ensures value { result ≡ integer_of numeral.now }
    ensures fits { IfSome result (λ v. FitsSigned w64 v) }
{
    if is_hexadecimal(numeral) {
        return digits_integer(behind_two(numeral));
    }
    match decimal(numeral) {
        None => None,
        Some(value) => Some(value as i64),
    }
}
