ghost use Rattle.std.specs.Prelude.{◌≡◌, MatchOption, true, false, ◌<◌};
ghost use Rattle.lua_lexer.specs.Letters.{is_line_byte, is_blank, is_digit, is_letter, is_word_byte, is_quote, is_hex_digit, hex_value};

/// Whether the byte is LF or CR.
pub(crate) fn is_line_byte(byte: u8) -> bool
    ensures { result ≡ is_line_byte byte }
{
    byte == b'\n' || byte == b'\r'
}

/// Whether the byte is white space.
pub(crate) fn is_blank(byte: u8) -> bool
    ensures { result ≡ is_blank byte }
{
    (byte >= 9 && byte <= 13) || byte == b' '
}

/// Whether the byte is a decimal digit.
pub(crate) fn is_digit(byte: u8) -> bool
    ensures { result ≡ is_digit byte }
{
    byte >= b'0' && byte <= b'9'
}

/// Whether a name may begin with the byte.
pub(crate) fn is_letter(byte: u8) -> bool
    ensures { result ≡ is_letter byte }
{
    (byte >= b'a' && byte <= b'z') || (byte >= b'A' && byte <= b'Z') || byte == b'_'
}

/// Whether a name may go on with the byte.
pub(crate) fn is_word_byte(byte: u8) -> bool
    ensures { result ≡ is_word_byte byte }
{
    is_letter(byte) || is_digit(byte)
}

/// Whether a short string begins and ends with the byte.
pub(crate) fn is_quote(byte: u8) -> bool
    ensures { result ≡ is_quote byte }
{
    byte == b'"' || byte == b'\''
}

/// What a hexadecimal digit stands for.
pub(crate) fn hex_value(byte: u8) -> Option<u8>
    ensures { MatchOption result (is_hex_digit byte ≡ false) (λ v. (is_hex_digit byte ≡ true) × (v ≡ hex_value byte) × (v < 16)) }
{
    if is_digit(byte) {
        return Some(byte - b'0');
    }
    if byte >= b'a' && byte <= b'f' {
        return Some(byte - 87);
    }
    if byte >= b'A' && byte <= b'F' {
        return Some(byte - 55);
    }
    None
}
