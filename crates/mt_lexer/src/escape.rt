//! What the characters of an escape stand for.

ghost use Rattle.std.specs.Prelude.{◌≡◌};
ghost use Rattle.mt_lexer.specs.Escape as spelling;

// One above the last character.
const TOO_LARGE: u32 = 0x11_0000;

/// Whether the character behind a backslash is an escape by itself: a quote, a slash, a backslash, or one of `b`, `f`, `n`, `r`,
/// `t` and `v`.
pub fn is_simple_escape(c: char) -> bool
    ensures { result ≡ spelling.is_simple_escape c }
{
    matches!(
        c,
        '"' | '\'' | '/' | '\\' | 'b' | 'f' | 'n' | 'r' | 't' | 'v'
    )
}

/// Whether the character is a hexadecimal digit, in either case.
pub fn is_hex(c: char) -> bool
    ensures { result ≡ spelling.is_hex c }
{
    matches!(c, '0'..='9' | 'A'..='F' | 'a'..='f')
}

fn hex_value(c: char) -> u32
    ensures value { result ≡ spelling.hex_value c }
{
    let code = u32::from(c);
    if c <= '9' {
        code.saturating_sub(48)
    } else if c <= 'F' {
        code.saturating_sub(55)
    } else {
        code.saturating_sub(87)
    }
}

/// The number that a hexadecimal number and one digit more spell. Each number that is no character's stands as one above the last
/// character, U+10FFFF.
pub fn hex_more(value: u32, digit: char) -> u32
    ensures { result ≡ spelling.hex_more value digit }
{
    (value.min(TOO_LARGE) * 16 + hex_value(digit)).min(TOO_LARGE)
}

/// Whether the number is the first half of a surrogate pair.
pub fn is_high(value: u32) -> bool
    ensures { result ≡ spelling.is_high value }
{
    value >= 0xD800 && value <= 0xDBFF
}

/// Whether the number is the second half of a surrogate pair.
pub fn is_low(value: u32) -> bool
    ensures { result ≡ spelling.is_low value }
{
    value >= 0xDC00 && value <= 0xDFFF
}

/// Whether the number is that of a Unicode scalar value: at most U+10FFFF, and no half of a surrogate pair.
pub fn is_character(value: u32) -> bool
    ensures { result ≡ spelling.is_character value }
{
    value <= 0x10_FFFF && !(value >= 0xD800 && value <= 0xDFFF)
}
