//! What the texts of tokens stand for. A value has no more units of UTF-16 than its text has bytes.

ghost use Rattle.std.specs.Prelude.{◌≡◌, ◌≤◌, IfOk, length, min};
ghost use Rattle.std.specs.Str.{chars};
ghost use Rattle.mt_lexer.specs.Word as word;
ghost use Rattle.mt_tree.specs.Text.{units_of};
ghost use Rattle.mt_parser_marks.specs.Values as value;

use crate::spelling::Spelling;
use mt_tree::{NoMemory, Text};
use std::alloc::Global;

const GREATEST: u64 = 9_007_199_254_740_991;

/// The characters of a name, of a word behind a dot, or of the name of a tag or an attribute. Bytes
/// that aren't UTF-8 have none.
///
/// # Errors
/// `NoMemory`.
pub fn name(alloc: Global, text: &[u8]) -> Result<Text, NoMemory>
    ensures value { IfOk result (λ made. made ≡ value.name_of text.now) }
    ensures short { IfOk result (λ made. units_of made ≤ length text.now) }
{
    Text::from_str(alloc, decoded(text))
}

/// The whole number that the digits spell, or 9007199254740991 where it is greater. Takes no
/// memory.
pub fn number(digits: &[u8]) -> i64
    ensures { result ≡ value.number_of digits.now }
{
    let mut value = 0;
    for digit in digits {
        value = more(value, *digit);
    }
    value as i64
}

// One digit more, up to the greatest number.
fn more(value: u64, digit: u8) -> u64
    ensures { result ≡ min (word.digit_more value digit) GREATEST }
{
    let digit = u64::from(digit.saturating_sub(b'0'));
    (value.min(GREATEST) * 10 + digit).min(GREATEST)
}

/// The characters of a text of code, given with its two quotes, where each escape is read. Two
/// escapes that form a surrogate pair are one character; a backslash that begins no escape is
/// itself.
///
/// # Errors
/// `NoMemory`.
pub fn text(alloc: Global, text: &[u8]) -> Result<Text, NoMemory>
    ensures value { IfOk result (λ made. made ≡ value.text_of text.now) }
    ensures short { IfOk result (λ made. units_of made ≤ length text.now) }
{
    Spelling::Escapes.read(alloc, inside(decoded(text)))
}

/// The characters of the quoted value of an attribute, given with its two quotes, where `&amp;`,
/// `&lt;`, `&gt;` and `&quot;` are read; any other `&` is itself.
///
/// # Errors
/// `NoMemory`.
pub fn quoted(alloc: Global, text: &[u8]) -> Result<Text, NoMemory>
    ensures value { IfOk result (λ made. made ≡ value.quoted_of text.now) }
    ensures short { IfOk result (λ made. units_of made ≤ length text.now) }
{
    Spelling::References.read(alloc, inside(decoded(text)))
}

/// The characters of a text between tags, read as [`quoted`] reads its text, but without quotes.
///
/// # Errors
/// `NoMemory`.
pub fn child_text(alloc: Global, text: &[u8]) -> Result<Text, NoMemory>
    ensures value { IfOk result (λ made. made ≡ value.child_text_of text.now) }
    ensures short { IfOk result (λ made. units_of made ≤ length text.now) }
{
    Spelling::References.read(alloc, decoded(text))
}

// The text that the bytes are, and the empty one where they aren't UTF-8.
fn decoded(text: &[u8]) -> &str
    ensures { chars result.now ≡ value.decoded text.now }
{
    match str::from_utf8(text) {
        Ok(decoded) => decoded,
        Err(_refused) => "",
    }
}

// All characters but the first and the last.
fn inside(text: &str) -> &str
    ensures { chars result.now ≡ value.inside (chars text.now) }
{
    let mut characters = text.chars();
    characters.next();
    characters.next_back();
    characters.as_str()
}
