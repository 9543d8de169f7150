ghost use Rattle.std.specs.Prelude.{◌≡◌, MatchOption, true, false};
ghost use Rattle.std.specs.Str.{is_utf8};

use std::str;

/// The text that the bytes are in UTF-8, where they are.
pub fn utf8_text(bytes: &[u8]) -> Option<&str>
    ensures { MatchOption result (is_utf8 bytes.now ≡ false) (λ text. (is_utf8 bytes.now ≡ true) × (text.now ≡ bytes.now)) }
{
    match str::from_utf8(bytes) {
        Ok(text) => Some(text),
        Err(_refused) => None,
    }
}

/// Whether the bytes are UTF-8. Takes no memory.
pub fn is_utf8(bytes: &[u8]) -> bool
    ensures { result ≡ is_utf8 bytes.now }
{
    utf8_text(bytes).is_some()
}
