ghost use Rattle.std.specs.Prelude.{◌≡◌, ◌≤◌, true, IfOk};
ghost use Rattle.std.specs.List.{list_all};
ghost use Rattle.std.specs.Str.{IsUtf8, chars};
ghost use Rattle.mt_small.specs.Paragraph.{is_plain, is_paragraph};

use crate::name::lower;
use mt_tree::{NoMemory, Text};
use std::alloc::Global;
use std::str;

/// Whether it is an ASCII letter, a digit or a space.
fn plain(byte: u8) -> bool
    ensures { result ≡ is_plain byte }
{
    lower(byte)
        || ((byte >= b'A' && byte <= b'Z') || ((byte >= b'0' && byte <= b'9') || byte == b' '))
}

/// Whether these are ASCII letters, digits and spaces.
fn all_plain(bytes: &[u8]) -> bool
    ensures { result ≡ list_all is_plain bytes.now }
{
    bytes.iter().all(|byte| plain(*byte))
}

/// Whether these are 1 to 1,000 ASCII letters, digits and spaces.
pub fn paragraph_fits(bytes: &[u8]) -> bool
    ensures { result ≡ is_paragraph bytes.now }
{
    bytes.len() >= 1 && (bytes.len() <= 1000 && all_plain(bytes))
}

/// The text of ASCII letters, digits and spaces.
pub fn plain_text(alloc: Global, bytes: &[u8]) -> Result<Text, NoMemory>
    requires { list_all is_plain bytes.now ≡ true }
    ensures { IfOk result (λ text. text ≡ chars bytes.now) }
{
    utf8_text(alloc, bytes)
}

/// The text that these bytes spell in UTF-8.
pub fn utf8_text(alloc: Global, bytes: &[u8]) -> Result<Text, NoMemory>
    requires { IsUtf8 bytes.now }
    ensures { IfOk result (λ text. text ≡ chars bytes.now) }
{
    match str::from_utf8(bytes) {
        Ok(text) => Text::from_str(alloc, text),
        Err(_refused) => unreachable!(),
    }
}
