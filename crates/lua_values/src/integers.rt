ghost use Rattle.std.specs.Prelude.{◌≡◌, ◌<◌, bit_and, bit_or, bit_xor, ◌+ℤ◌, ◌-ℤ◌, ◌*ℤ◌, neg_ℤ, pos};
ghost use Rattle.lua_values.specs.Integers.{word, bits_of, from_bits, quotient, remainder, moved_left, moved_right, shift_left, shift_right};

/// `a + b`, which wraps.
pub fn add(a: i64, b: i64) -> i64
    ensures { result ≡ word (a +ℤ b) }
{
    a.wrapping_add(b)
}

/// `a - b`, which wraps.
pub fn sub(a: i64, b: i64) -> i64
    ensures { result ≡ word (a -ℤ b) }
{
    a.wrapping_sub(b)
}

/// `a * b`, which wraps.
pub fn mul(a: i64, b: i64) -> i64
    ensures { result ≡ word (a *ℤ b) }
{
    a.wrapping_mul(b)
}

/// `-a`, which wraps: the least integer stays itself.
pub fn neg(a: i64) -> i64
    ensures { result ≡ word (neg_ℤ a) }
{
    a.wrapping_neg()
}

/// `a & b`, bit by bit.
pub fn band(a: i64, b: i64) -> i64
    ensures { result ≡ from_bits (bit_and (bits_of a) (bits_of b)) }
{
    a & b
}

/// `a | b`, bit by bit.
pub fn bor(a: i64, b: i64) -> i64
    ensures { result ≡ from_bits (bit_or (bits_of a) (bits_of b)) }
{
    a | b
}

/// `a ~ b`, bit by bit.
pub fn bxor(a: i64, b: i64) -> i64
    ensures { result ≡ from_bits (bit_xor (bits_of a) (bits_of b)) }
{
    a ^ b
}

/// `~a`, which turns each bit.
pub fn bnot(a: i64) -> i64
    ensures { result ≡ neg_ℤ a -ℤ pos 1 }
{
    !a
}

fn move_left(a: i64, places: u64) -> i64
    ensures { result ≡ moved_left a places }
{
    if places < 64 {
        (a.cast_unsigned() << places).cast_signed()
    } else {
        0
    }
}

fn move_right(a: i64, places: u64) -> i64
    ensures { result ≡ moved_right a places }
{
    if places < 64 {
        (a.cast_unsigned() >> places).cast_signed()
    } else {
        0
    }
}

/// `a << b`, which fills with zeros. A negative amount shifts to the right, and 64 places or more leave 0.
pub fn shl(a: i64, b: i64) -> i64
    ensures { result ≡ shift_left a b }
{
    if b < 0 {
        move_right(a, b.unsigned_abs())
    } else {
        move_left(a, b as u64)
    }
}

/// `a >> b`, which fills with zeros. A negative amount shifts to the left, and 64 places or more leave 0.
pub fn shr(a: i64, b: i64) -> i64
    ensures { result ≡ shift_right a b }
{
    if b < 0 {
        move_left(a, b.unsigned_abs())
    } else {
        move_right(a, b as u64)
    }
}

/// `a // b`, which rounds down and wraps, or `None` for a `b` of 0.
pub fn idiv(a: i64, b: i64) -> Option<i64>
    ensures { result ≡ quotient a b }
{
    if b == 0 {
        return None;
    }
    if b > 0 {
        return Some(a.div_euclid(b));
    }
    let divisor = b.unsigned_abs();
    Some(if a > 0 {
        !(((a as u64 - 1) / divisor) as i64)
    } else {
        (a.unsigned_abs() / divisor).cast_signed()
    })
}

/// `a % b`, which has the sign of `b`, or `None` for a `b` of 0.
pub fn modulo(a: i64, b: i64) -> Option<i64>
    ensures { result ≡ remainder a b }
{
    if b == 0 {
        return None;
    }
    if b > 0 {
        return Some(a.rem_euclid(b));
    }
    let divisor = b.unsigned_abs();
    let size = if a > 0 {
        divisor - 1 - (a as u64 - 1) % divisor
    } else {
        a.unsigned_abs() % divisor
    };
    Some(-(size as i64))
}
