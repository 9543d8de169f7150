ghost use Rattle.std.specs.Prelude.{◌≡◌, IfOk, option_map};
ghost use Rattle.std.specs.Str.{chars};
ghost use Rattle.mt_schedule.specs.Command.{fits_field, is_quoted};
ghost use Rattle.mt_schedule.specs.Reading.{fitting, string_in, text_in};

use crate::utf8::utf8_text;
use mt_html::has_nul;
use mt_tree::{NoMemory, TEXT_LIMIT, Text};
use serde_json::Value;
use std::alloc::Global;

/// Whether the bytes begin and end with a quote.
fn is_quoted(bytes: &[u8]) -> bool
    ensures { result ≡ is_quoted bytes.now }
{
    !bytes.is_empty() && (bytes[0] == b'"' && bytes[bytes.len() - 1] == b'"')
}

/// Whether the text may be put into a field.
fn fits_field(text: &Text) -> bool
    ensures { result ≡ fits_field text.now }
{
    text.units() <= TEXT_LIMIT && !has_nul(text)
}

/// What a JSON string spells.
fn string_in(alloc: Global, json: &str) -> Result<Option<Text>, NoMemory>
    ensures { IfOk result (λ text. text ≡ option_map chars (string_in json.now)) }
{
    match Value::from_str(alloc, json) {
        Ok(value) => match value.as_str() {
            Some(spelled) => Ok(Some(Text::from_str(alloc, spelled)?)),
            None => Ok(None),
        },
        Err(error) => {
            if error.is_memory() {
                Err(NoMemory)
            } else {
                Ok(None)
            }
        }
    }
}

/// What a JSON string spells, where it may be put into a field.
fn fitting_in(alloc: Global, json: &str) -> Result<Option<Text>, NoMemory>
    ensures { IfOk result (λ text. text ≡ fitting (string_in json.now)) }
{
    match string_in(alloc, json)? {
        Some(text) => Ok(if fits_field(&text) { Some(text) } else { None }),
        None => Ok(None),
    }
}

/// The text that the bytes spell as a JSON string, with nothing before or behind it, where it may be put into a field.
pub fn field_text(alloc: Global, bytes: &[u8]) -> Result<Option<Text>, NoMemory>
    ensures { IfOk result (λ text. text ≡ text_in bytes.now) }
{
    if !is_quoted(bytes) {
        return Ok(None);
    }
    match utf8_text(bytes) {
        Some(json) => fitting_in(alloc, json),
        None => Ok(None),
    }
}
