ghost use Rattle.std.specs.Prelude.{◌≡◌, ◌++◌, flat_map, OnOk};
ghost use Rattle.mt_syntax.specs.PageText.{attribute_text};
ghost use Rattle.mt_page_tokens.specs.Tokens.{opening, script};

use mt_page_write::append_attribute;
use mt_script_write::code_text;
use mt_syntax::Code;
use mt_tree::{Attribute, AttributeValue, NoMemory, Text, append};
use std::alloc::Global;

fn append_code_attribute(
    alloc: Global,
    attribute: &Attribute<Code>,
    into: &mut Vec<u8>,
) -> Result<(), NoMemory>
    ensures { OnOk result (into.new.items ≡ into.old.items ++ attribute_text attribute.now) }
{
    match &attribute.value {
        AttributeValue::Plain(text) => append_attribute(&attribute.name, text.as_bytes(), into),
        AttributeValue::Handler(code) => {
            let mut text = Vec::new(alloc);
            code_text(alloc, code, &mut text)?;
            append_attribute(&attribute.name, text.as_slice(), into)
        }
    }
}

fn append_attributes(
    alloc: Global,
    attributes: &[Attribute<Code>],
    into: &mut Vec<u8>,
) -> Result<(), NoMemory>
    ensures { OnOk result (into.new.items ≡ into.old.items ++ flat_map attribute_text attributes.now) }
{
    for attribute in attributes {
        append_code_attribute(alloc, attribute, into)?;
    }
    Ok(())
}

/// Appends an opening tag without its `>`.
///
/// # Errors
/// `NoMemory`; a beginning of the text may then have been appended.
#[tactic(auto, unfolding(crate::specs::Tokens::opening))]
pub(crate) fn append_opening(
    alloc: Global,
    tag: &Text,
    attributes: &[Attribute<Code>],
    into: &mut Vec<u8>,
) -> Result<(), NoMemory>
    ensures { OnOk result (into.new.items ≡ into.old.items ++ opening tag.now attributes.now) }
{
    append(b"<", into)?;
    append(tag.as_bytes(), into)?;
    append_attributes(alloc, attributes, into)
}

/// Appends a script with its tags, without the last `>`.
///
/// # Errors
/// `NoMemory`; a beginning of the text may then have been appended.
#[tactic(auto, unfolding(crate::specs::Tokens::script))]
pub(crate) fn append_script(alloc: Global, code: &Code, into: &mut Vec<u8>) -> Result<(), NoMemory>
    ensures { OnOk result (into.new.items ≡ into.old.items ++ script code.now) }
{
    append(b"<script>", into)?;
    code_text(alloc, code, into)?;
    append(b"</script", into)
}
