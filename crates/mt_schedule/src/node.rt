ghost use Rattle.std.specs.Prelude.{◌≡◌, IfOk};
ghost use Rattle.std.specs.List.{list_all};
ghost use Rattle.std.specs.Str.{chars};
ghost use Rattle.mt_schedule.specs.Command.{is_white_space, is_id_character, is_id};
ghost use Rattle.mt_schedule.specs.Reading.{numbered, id_in, node_in};
ghost use Rattle.mt_lines.specs.Number.{number_in};

use crate::utf8::utf8_text;
use mt_lines::number_of;
use mt_tree::{NoMemory, NodeName, Text};
use std::alloc::Global;

/// Whether it is white space of the language.
fn is_white_space(c: char) -> bool
    ensures { result ≡ is_white_space c }
{
    matches!(
        c,
        '\t'..='\r' | ' ' | '\u{A0}' | '\u{FEFF}' | '\u{2028}' | '\u{2029}'
    )
}

/// Whether an id that a line names may have this character.
fn is_id_character(c: char) -> bool
    ensures { result ≡ is_id_character c }
{
    c >= ' ' && !is_white_space(c)
}

fn are_id_characters(text: &str) -> bool
    ensures { result ≡ list_all is_id_character (chars text.now) }
{
    for c in text.chars() {
        if !is_id_character(c) {
            return false;
        }
    }
    true
}

/// Whether a line can name this id: it isn't empty, and no character of it is white space or below U+0020.
fn is_id(text: &str) -> bool
    ensures { result ≡ is_id (chars text.now) }
{
    !text.is_empty() && are_id_characters(text)
}

/// The element with this number.
fn numbered(bytes: &[u8]) -> Option<NodeName>
    ensures { result ≡ numbered (number_in 4294967295 bytes.now) }
{
    let number = number_of(u64::from(u32::MAX), bytes)?;
    Some(NodeName::Number(number as u32))
}

/// The element with this id.
fn with_id(alloc: Global, bytes: &[u8]) -> Result<Option<NodeName>, NoMemory>
    ensures { IfOk result (λ node. node ≡ id_in bytes.now) }
{
    match utf8_text(bytes) {
        Some(id) => {
            if is_id(id) {
                Ok(Some(NodeName::Id(Text::from_str(alloc, id)?)))
            } else {
                Ok(None)
            }
        }
        None => Ok(None),
    }
}

/// The element that a word names.
pub fn node_of(alloc: Global, word: &[u8]) -> Result<Option<NodeName>, NoMemory>
    ensures { IfOk result (λ node. node ≡ node_in word.now) }
{
    match word.split_first() {
        Some((sign, rest)) => match *sign {
            b'#' => with_id(alloc, rest),
            b'@' => Ok(numbered(rest)),
            _ => Ok(None),
        },
        None => Ok(None),
    }
}
