ghost use Rattle.std.specs.Prelude.{◌≡◌};
ghost use Rattle.mt_page_tokens.specs.Reading.{Gives, opening_at, script_at, words_at};

use crate::attributes::{are_distinct, attributes};
use crate::bytes::{cut, first, is_same, skip};
use crate::refusal::ReadRefusal;
use crate::texts::{code, is_text, text, unescape};
use crate::writing::{append_opening, append_script};
use mt_page_write::append_escaped;
use mt_syntax::Code;
use mt_tree::{Attribute, Row, Text, tag_known};
use std::alloc::Global;

/// An opening tag.
#[derive(Drop)]
pub struct Opening {
    /// The tag's name.
    pub tag: Text,
    /// The attributes, in text order.
    pub attributes: Row<Attribute<Code>>,
}

/// An opening tag, of its bytes before the `>`.
///
/// # Errors
/// `NotPage` exactly where no opening tag within the limits has these bytes; `NoMemory`.
#[tactic(auto, unfolding(crate::specs::Reading::opening_at))]
pub fn read_opening(alloc: Global, bytes: &[u8]) -> Result<Opening, ReadRefusal>
    ensures { Gives (λ opening. opening) result (opening_at bytes.now) }
{
    let (spelled, rest) = cut(b' ', skip(bytes, 1));
    let tag = text(alloc, spelled)?;
    let attributes = Row::from_vec(alloc, attributes(alloc, bytes.len(), rest)?)?;
    let mut again = Vec::new(alloc);
    append_opening(alloc, &tag, attributes.items(), &mut again)?;
    if tag_known(spelled) && are_distinct(attributes.items()) && is_same(again.as_slice(), bytes) {
        Ok(Opening { tag, attributes })
    } else {
        Err(ReadRefusal::NotPage)
    }
}

/// A text that stands between tags, of its bytes.
///
/// # Errors
/// `NotPage` exactly where no text within the limits has these bytes; `NoMemory`.
#[tactic(auto, unfolding(crate::specs::Reading::words_at))]
pub fn read_words(alloc: Global, bytes: &[u8]) -> Result<Text, ReadRefusal>
    ensures { Gives (λ words. words) result (words_at bytes.now) }
{
    let plain = unescape(alloc, bytes)?;
    let found = text(alloc, plain.as_slice())?;
    let mut again = Vec::new(alloc);
    append_escaped(plain.as_slice(), &mut again)?;
    if is_text(&found) && is_same(again.as_slice(), bytes) {
        Ok(found)
    } else {
        Err(ReadRefusal::NotPage)
    }
}

/// A script, of its bytes before the last `>`.
///
/// # Errors
/// `NotPage` exactly where no code within the limits makes a script of these bytes; `NoMemory`.
#[tactic(auto, unfolding(crate::specs::Reading::script_at))]
pub fn read_script(alloc: Global, bytes: &[u8]) -> Result<Code, ReadRefusal>
    ensures { Gives (λ code. code) result (script_at bytes.now) }
{
    let code = code(alloc, first(skip(bytes, 8), bytes.len().saturating_sub(16)))?;
    let mut again = Vec::new(alloc);
    append_script(alloc, &code, &mut again)?;
    if is_same(again.as_slice(), bytes) {
        Ok(code)
    } else {
        Err(ReadRefusal::NotPage)
    }
}
