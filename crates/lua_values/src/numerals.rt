ghost use Rattle.std.specs.Prelude.{◌≡◌, ◌<◌, ◌≤◌, ◌&&◌, length, nat_lt};
ghost use Rattle.std.specs.Char.{digit_value};
ghost use Rattle.std.specs.List.{list_all};
ghost use Rattle.lua_values.specs.Numerals.{is_digit, whole, decimal_value, hex_value, numeral_value};

// What a byte counts as a digit: 36 for one that is neither a digit nor a letter.
fn digit(byte: u8) -> u8
    ensures { result ≡ digit_value byte }
{
    match byte {
        b'0'..=b'9' => byte - b'0',
        b'A'..=b'Z' => byte - b'A' + 10,
        b'a'..=b'z' => byte - b'a' + 10,
        _ => 36,
    }
}

fn all_digits(bytes: &[u8], base: u8) -> bool
    ensures { result ≡ list_all (is_digit base) bytes.now }
{
    bytes.iter().all(|byte| digit(*byte) < base)
}

fn are_digits(bytes: &[u8], base: u8) -> bool
    ensures { result ≡ (nat_lt 0 (length bytes.now) && list_all (is_digit base) bytes.now) }
{
    !bytes.is_empty() && all_digits(bytes, base)
}

fn read_decimal(bytes: &[u8]) -> Option<i64>
    ensures { result ≡ decimal_value (whole 10 bytes.now) }
{
    if !are_digits(bytes, 10) {
        return None;
    }
    let mut value: u64 = 0;
    for byte in bytes {
        let next = u128::from(value) * 10 + u128::from(digit(*byte));
        if next >= 1 << 63 {
            return None;
        }
        value = next as u64;
    }
    Some(value as i64)
}

fn read_hex(bytes: &[u8]) -> Option<i64>
    ensures { result ≡ hex_value (whole 16 bytes.now) }
{
    if !are_digits(bytes, 16) {
        return None;
    }
    let mut value: u64 = 0;
    for byte in bytes {
        value = value.wrapping_mul(16).wrapping_add(u64::from(digit(*byte)));
    }
    Some(value.cast_signed())
}

/// The integer that a numeral writes: decimal digits of at most 9223372036854775807, or `0x` or `0X` and hexadecimal digits, which
/// are read modulo 2^64. `None` for any other bytes.
pub fn read_integer(bytes: &[u8]) -> Option<i64>
    ensures { result ≡ numeral_value bytes.now }
{
    match bytes {
        [b'0', b'x' | b'X', digits @ ..] => read_hex(digits),
        _ => read_decimal(bytes),
    }
}
