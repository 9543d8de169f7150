//! Escapes of a text of code.

ghost use Rattle.std.specs.Prelude.{◌≡◌, true, Some};
ghost use Rattle.std.specs.Str.{chars};
ghost use Rattle.mt_lexer.specs.Escape as spelling;
ghost use Rattle.mt_parser_marks.specs.Values.{unplaced};
ghost use Rattle.mt_parser_marks.specs.Reading.{as_read};

use crate::character::first;
use mt_lexer::{hex_more, is_character, is_hex, is_high, is_low, is_simple_escape};

/// What the text behind a backslash spells at its front, and the rest; `None` where it is no
/// escape.
pub fn escape(text: &str) -> Option<(char, &str)>
    ensures { as_read result ≡ spelling.escape (unplaced (chars text.now)) }
{
    let (letter, rest) = first(text)?;
    if is_simple_escape(letter) {
        Some((simple_escape(letter), rest))
    } else if letter == 'u' {
        let (value, rest) = unicode(rest)?;
        Some((char::from_u32(value)?, rest))
    } else {
        None
    }
}

fn simple_escape(c: char) -> char
    ensures { result ≡ spelling.simple_escape c }
{
    match c {
        'b' => '\u{8}',
        'f' => '\u{C}',
        'n' => '\n',
        'r' => '\r',
        't' => '\t',
        'v' => '\u{B}',
        _ => c,
    }
}

// Behind `\u`.
fn unicode(text: &str) -> Option<(u32, &str)>
    ensures { as_read result ≡ spelling.unicode (unplaced (chars text.now)) }
{
    let (c, rest) = first(text)?;
    if c == '{' {
        in_braces(rest)
    } else {
        let (value, rest) = digits(4, 0, text)?;
        unit(value, rest)
    }
}

// Behind `\u{`.
fn in_braces(text: &str) -> Option<(u32, &str)>
    ensures { as_read result ≡ spelling.in_braces (unplaced (chars text.now)) }
{
    let (c, rest) = first(text)?;
    if is_hex(c) {
        code_point(5, hex_more(0, c), rest)
    } else {
        None
    }
}

// A closing brace, or at most `count` digits and then a closing brace.
fn code_point(count: u8, value: u32, text: &str) -> Option<(u32, &str)>
    ensures { as_read result ≡ spelling.code_point count value (unplaced (chars text.now)) }
{
    let (c, rest) = first(text)?;
    if c == '}' {
        if is_character(value) {
            Some((value, rest))
        } else {
            None
        }
    } else if count > 0 && is_hex(c) {
        code_point(count - 1, hex_more(value, c), rest)
    } else {
        None
    }
}

// `count` digits.
fn digits(count: u8, value: u32, text: &str) -> Option<(u32, &str)>
    ensures { as_read result ≡ spelling.digits count value (unplaced (chars text.now)) }
{
    if count == 0 {
        return Some((value, text));
    }
    let (c, rest) = first(text)?;
    if is_hex(c) {
        digits(count - 1, hex_more(value, c), rest)
    } else {
        None
    }
}

// A unit, which needs its other half where it is the first of a surrogate pair.
fn unit(value: u32, rest: &str) -> Option<(u32, &str)>
    ensures { as_read result ≡ spelling.of_unit (Some (value, unplaced (chars rest.now))) }
{
    if is_high(value) {
        let (low, rest) = second_unit(rest)?;
        if is_low(low) {
            Some((pair_of(value, low), rest))
        } else {
            None
        }
    } else if is_low(value) {
        None
    } else {
        Some((value, rest))
    }
}

// `\u` and four digits.
fn second_unit(text: &str) -> Option<(u32, &str)>
    ensures { as_read result ≡ spelling.second_unit (unplaced (chars text.now)) }
{
    let (c, rest) = first(text)?;
    if c == '\\' { low_digits(rest) } else { None }
}

fn low_digits(text: &str) -> Option<(u32, &str)>
    ensures { as_read result ≡ spelling.low_digits (unplaced (chars text.now)) }
{
    let (c, rest) = first(text)?;
    if c == 'u' { digits(4, 0, rest) } else { None }
}

fn pair_of(high: u32, low: u32) -> u32
    requires high { spelling.is_high high ≡ true }
    requires low { spelling.is_low low ≡ true }
    ensures { result ≡ spelling.pair_of high low }
{
    0x1_0000 + (high - 0xD800) * 0x400 + (low - 0xDC00)
}
