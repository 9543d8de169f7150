ghost use Rattle.std.specs.Prelude.{◌≡◌, Some};
ghost use Rattle.mt_html.specs.Refusals.{is_long as is_too_long};
ghost use Rattle.mt_page_tokens.specs.Codes.{code_spelled};
ghost use Rattle.mt_page_tokens.specs.Limits.{is_text as fits};
ghost use Rattle.mt_page_tokens.specs.Reading.{Gives, letter, text_at, unescaped};

use crate::refusal::ReadRefusal;
use mt_html::has_nul;
use mt_script_read::read_code;
use mt_script_words::CodeRefusal;
use mt_syntax::Code;
use mt_tree::{TEXT_LIMIT, Text};
use std::alloc::Global;
use std::str;

/// Where in a text with character references its reader stands.
#[derive(Clone, Copy)]
pub enum Escape {
    /// In no reference.
    Plain,
    /// Behind the `&`.
    Ampersand,
    /// In the name, behind its first letter.
    Name,
}

/// The text that the bytes are in UTF-8.
///
/// # Errors
/// `NotPage` exactly where they are none; `NoMemory`.
pub(crate) fn text(alloc: Global, bytes: &[u8]) -> Result<Text, ReadRefusal>
    ensures { Gives (λ text. text) result (text_at bytes.now) }
{
    match str::from_utf8(bytes) {
        Ok(content) => Ok(Text::from_str(alloc, content)?),
        Err(_refused) => Err(ReadRefusal::NotPage),
    }
}

fn is_long(text: &Text) -> bool
    ensures { result ≡ is_too_long text.now }
{
    text.units() > TEXT_LIMIT
}

/// Whether a text or a value is within the limits. Takes no memory.
#[tactic(auto, unfolding(crate::specs::Limits::is_text))]
pub(crate) fn is_text(text: &Text) -> bool
    ensures { result ≡ fits text.now }
{
    let _characters = text.as_str();
    !has_nul(text) && !is_long(text)
}

/// The code within the limits whose text the bytes are.
///
/// # Errors
/// `NotPage` exactly where there is none; `NoMemory`.
#[tactic(auto, unfolding(crate::specs::Codes::code_spelled))]
pub(crate) fn code(alloc: Global, bytes: &[u8]) -> Result<Code, ReadRefusal>
    ensures { Gives (λ code. code) result (code_spelled bytes.now) }
{
    match read_code(alloc, bytes) {
        Ok(code) => Ok(code),
        Err(CodeRefusal::NotCode) => Err(ReadRefusal::NotPage),
        Err(CodeRefusal::NoMemory) => Err(ReadRefusal::NoMemory),
    }
}

fn named_letter(byte: u8) -> u8
    ensures { result ≡ letter byte }
{
    match byte {
        b'a' => b'&',
        b'l' => b'<',
        b'g' => b'>',
        b'q' => b'"',
        _ => b'\r',
    }
}

/// The bytes with the characters in the place of their references. Of a reference only the first letter is looked at, and any other
/// than those of `&amp;`, `&lt;`, `&gt;` and `&quot;` is the carriage return's.
///
/// # Errors
/// `NoMemory`.
#[tactic(auto, unfolding(crate::specs::Reading::unescaped))]
pub(crate) fn unescape(alloc: Global, bytes: &[u8]) -> Result<Vec<u8>, ReadRefusal>
    ensures { Gives (λ plain. plain.items) result (Some (unescaped bytes.now)) }
{
    let mut out = Vec::new(alloc);
    let mut at = Escape::Plain;
    for b in bytes {
        match at {
            Escape::Plain => {
                if *b == b'&' {
                    at = Escape::Ampersand;
                } else {
                    out.push(*b)?;
                }
            }
            Escape::Ampersand => {
                out.push(named_letter(*b))?;
                at = Escape::Name;
            }
            Escape::Name => {
                if *b == b';' {
                    at = Escape::Plain;
                }
            }
        }
    }
    Ok(out)
}
