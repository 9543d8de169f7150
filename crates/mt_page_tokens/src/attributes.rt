ghost use Rattle.std.specs.Prelude.{◌≡◌};
ghost use Rattle.mt_page_tokens.specs.Limits.{are_distinct as distinct, has_name as named};
ghost use Rattle.mt_page_tokens.specs.Reading.{Gives, attribute_at, attributes_by, value_at};

use crate::bytes::{cut, is_same, skip};
use crate::refusal::ReadRefusal;
use crate::texts::{code, is_text, text, unescape};
use mt_syntax::Code;
use mt_tree::{Attribute, AttributeValue, Text, attribute_fits, handler_known};
use std::alloc::Global;

#[tactic(auto, unfolding(crate::specs::Reading::value_at))]
fn value(alloc: Global, handler: bool, bytes: &[u8]) -> Result<AttributeValue<Code>, ReadRefusal>
    ensures { Gives (λ value. value) result (value_at handler bytes.now) }
{
    if handler {
        let code = code(alloc, bytes)?;
        Ok(AttributeValue::Handler(code))
    } else {
        let text = text(alloc, bytes)?;
        if is_text(&text) {
            Ok(AttributeValue::Plain(text))
        } else {
            Err(ReadRefusal::NotPage)
        }
    }
}

#[tactic(auto, unfolding(crate::specs::Reading::attribute_at))]
fn attribute(alloc: Global, bytes: &[u8]) -> Result<(Attribute<Code>, &[u8]), ReadRefusal>
    ensures { Gives (λ x. (x.0, x.1.now)) result (attribute_at bytes.now) }
{
    let (spelled, rest) = cut(b'=', bytes);
    let name = text(alloc, spelled)?;
    let (escaped, rest) = cut(b'"', skip(rest, 1));
    let bytes = unescape(alloc, escaped)?;
    let value = value(alloc, handler_known(spelled), bytes.as_slice())?;
    if attribute_fits(spelled) {
        Ok((Attribute { name, value }, skip(rest, 1)))
    } else {
        Err(ReadRefusal::NotPage)
    }
}

/// The attributes behind the first space of an opening tag, at most so many.
///
/// # Errors
/// `NotPage`, `NoMemory`.
pub(crate) fn attributes(
    alloc: Global,
    turns: usize,
    bytes: &[u8],
) -> Result<Vec<Attribute<Code>>, ReadRefusal>
    ensures { Gives (λ found. found.items) result (attributes_by turns bytes.now) }
{
    let mut out = Vec::new(alloc);
    let mut rest = bytes;
    for _ in 0..turns {
        if rest.is_empty() {
            return Ok(out);
        }
        let (found, after) = attribute(alloc, rest)?;
        rest = after;
        out.push(found)?;
    }
    if rest.is_empty() {
        Ok(out)
    } else {
        Err(ReadRefusal::NotPage)
    }
}

fn has_name(name: &Text, attributes: &[Attribute<Code>]) -> bool
    ensures { result ≡ named name.now attributes.now }
{
    for attribute in attributes {
        if is_same(name.as_bytes(), attribute.name.as_bytes()) {
            return true;
        }
    }
    false
}

/// Whether no two attributes have one name.
pub(crate) fn are_distinct(attributes: &[Attribute<Code>]) -> bool
    ensures { result ≡ distinct attributes.now }
{
    for (i, attribute) in attributes.iter().enumerate() {
        if has_name(&attribute.name, &attributes[i + 1..]) {
            return false;
        }
    }
    true
}
