ghost use Rattle.std.specs.Prelude.{◌≡◌, ◌≤◌, length};
ghost use Rattle.mt_script_words.specs.Words.{after_word, is_word_byte, word_length, word_of};

use mt_json::skip;

fn is_word_byte(b: u8) -> bool
    ensures { result ≡ is_word_byte b }
{
    128 <= b || b.is_ascii_alphanumeric() || b == b'_'
}

fn word_length(bytes: &[u8]) -> usize
    ensures value { result ≡ word_length bytes.now }
    ensures bound { result ≤ length bytes.now }
{
    for (i, b) in bytes.iter().enumerate() {
        if !is_word_byte(*b) {
            return i;
        }
    }
    bytes.len()
}

/// The longest word that the bytes begin with: letters, digits, `_` and bytes of characters beyond ASCII.
pub fn word(bytes: &[u8]) -> &[u8]
    ensures { result.now ≡ word_of bytes.now }
{
    &bytes[..word_length(bytes)]
}

/// What follows that word.
pub fn after_word(bytes: &[u8]) -> &[u8]
    ensures { result.now ≡ after_word bytes.now }
{
    skip(bytes, word_length(bytes))
}
