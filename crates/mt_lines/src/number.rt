ghost use Rattle.std.specs.Prelude.{◌≡◌, ◌≤◌, ◌<◌, ◌^◌, ◌↔◌, IsTrue, ℕ, IfSome, IfNone, decimal, length, slice_index};
ghost use Rattle.mt_lines.specs.Number.{number_in};

use std::str;

/// The number that these bytes spell, which begin with a digit from 1 to 9.
fn parse_digits(digits: &[u8]) -> Option<u64>
    requires some { 0 < length digits.now }
    requires first { (49 ≤ slice_index digits.now 0) × (slice_index digits.now 0 ≤ 57) }
    ensures found { IfSome result (λ number. (0 < number) × (number < 2 ^ 64) × (digits.now ≡ decimal number)) }
    ensures none { IfNone result ((number : ℕ) → number < 2 ^ 64 → digits.now ≡ decimal number → ⊥) }
{
    match str::from_utf8(digits) {
        Ok(text) => match text.parse::<u64>() {
            Ok(number) => Some(number),
            Err(_refused) => None,
        },
        Err(_refused) => None,
    }
}

/// Whether it is a digit from 1 to 9.
fn is_positive_digit(byte: u8) -> bool
    ensures { IsTrue result ↔ ((49 ≤ byte) × (byte ≤ 57)) }
{
    byte >= b'1' && byte <= b'9'
}

/// The positive number that the bytes spell in decimal digits, without leading zeros.
fn parse_positive(bytes: &[u8]) -> Option<u64>
    ensures found { IfSome result (λ number. (0 < number) × (number < 2 ^ 64) × (bytes.now ≡ decimal number)) }
    ensures none { IfNone result ((number : ℕ) → 0 < number → number < 2 ^ 64 → bytes.now ≡ decimal number → ⊥) }
{
    if bytes.is_empty() {
        return None;
    }
    // `parse` takes a plus sign and leading zeros as well.
    if is_positive_digit(bytes[0]) {
        parse_digits(bytes)
    } else {
        None
    }
}

/// The number from 1 to the limit that the bytes spell in decimal digits, without leading zeros. Takes no memory.
pub fn number_of(limit: u64, bytes: &[u8]) -> Option<u64>
    ensures exact { result ≡ number_in limit bytes.now }
    ensures bound { IfSome result (λ number. number ≤ limit) }
{
    let number = parse_positive(bytes)?;
    if number <= limit { Some(number) } else { None }
}
