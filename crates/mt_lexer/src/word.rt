//! Names, reserved words and numbers by their bytes.

ghost use Rattle.std.specs.Prelude.{◌≡◌, ◌<◌, ◌≤◌, ◌^◌, min, ◌+◌, length, take};
ghost use Rattle.mt_lexer.specs.Word as spelling;

use crate::mode::Before;
use mt_tree::{Kind, NUMBER_LIMIT, word_constant, word_reserved};

const GREATEST: u64 = NUMBER_LIMIT as u64;

/// Whether the word is reserved or a name.
pub fn word_kind(word: &[u8]) -> Kind
    ensures { result ≡ spelling.word_kind word.now }
{
    if word_reserved(word) {
        Kind::Reserved
    } else {
        Kind::Name
    }
}

/// What the word means to a `<` behind it.
pub fn before_word(before: Before, word: &[u8]) -> Before
    ensures { result ≡ spelling.before_word before word.now }
{
    match before {
        Before::Dot => Before::Operand,
        Before::Operand | Before::Other => {
            if word_reserved(word) && !word_constant(word) {
                Before::Other
            } else {
                Before::Operand
            }
        }
    }
}

/// Whether the digits spell no number that is too large.
pub fn is_number(digits: &[u8]) -> bool
    ensures { result ≡ spelling.is_number digits.now }
{
    let mut value = 0;
    for digit in digits {
        value = more(value, *digit);
    }
    value <= GREATEST
}

// One digit more, where each number that is too large stands as the first one.
fn more(value: u64, digit: u8) -> u64
    ensures value { result ≡ min (spelling.digit_more value digit) (GREATEST + 1) }
{
    let digit = u64::from(digit.saturating_sub(b'0'));
    (value.min(GREATEST + 1) * 10 + digit).min(GREATEST + 1)
}
