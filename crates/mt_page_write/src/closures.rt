ghost use Rattle.std.specs.Prelude.{◌≡◌, ◌++◌, flat_map, OnOk, OnErr};
ghost use Rattle.std.specs.Io.{StartsWith};
ghost use Rattle.mt_syntax.specs.CodeText.{code_text};
ghost use Rattle.mt_syntax.specs.Pages.{code_of};
ghost use Rattle.mt_page_write.specs.Written.{attribute_written, closing_written, opening_written, script_written};

use crate::escaping::append_attribute;
use mt_script_write::write_code;
use mt_syntax::Tilde;
use mt_tree::{Attribute, AttributeValue, Closure, NoMemory, Row, Text, append};
use std::alloc::Global;

fn append_code(
    alloc: Global,
    closure: &Closure,
    tildes: &Row<Tilde>,
    into: &mut Vec<u8>,
) -> Result<(), NoMemory>
    ensures text { OnOk result (into.new.items ≡ into.old.items ++ code_text (code_of tildes.now closure.now).body) }
    ensures kept { OnErr result (StartsWith into.new.items into.old.items) }
{
    match tildes.items().get(closure.tilde as usize) {
        Some(tilde) => write_code(alloc, tilde, &closure.values, into),
        None => Ok(()),
    }
}

fn append_closure_attribute(
    alloc: Global,
    attribute: &Attribute<Closure>,
    tildes: &Row<Tilde>,
    into: &mut Vec<u8>,
) -> Result<(), NoMemory>
    ensures text { OnOk result (into.new.items ≡ into.old.items ++ attribute_written tildes.now attribute.now) }
    ensures kept { OnErr result (StartsWith into.new.items into.old.items) }
{
    match &attribute.value {
        AttributeValue::Plain(text) => append_attribute(&attribute.name, text.as_bytes(), into),
        AttributeValue::Handler(closure) => {
            let mut code = Vec::new(alloc);
            append_code(alloc, closure, tildes, &mut code)?;
            append_attribute(&attribute.name, code.as_slice(), into)
        }
    }
}

#[tactic(auto, using(mt_tree::proofs::Fronts::front_of_front, mt_tree::proofs::Fronts::front_of_more))]
fn append_attributes(
    alloc: Global,
    attributes: &[Attribute<Closure>],
    tildes: &Row<Tilde>,
    into: &mut Vec<u8>,
) -> Result<(), NoMemory>
    ensures text { OnOk result (into.new.items ≡ into.old.items ++ flat_map (attribute_written tildes.now) attributes.now) }
    ensures kept { OnErr result (StartsWith into.new.items into.old.items) }
{
    for attribute in attributes {
        append_closure_attribute(alloc, attribute, tildes, into)?;
    }
    Ok(())
}

/// Appends an opening tag.
///
/// # Errors
/// `NoMemory`; a beginning of the text may then have been appended.
#[tactic(auto, using(mt_tree::proofs::Fronts::front_of_front, mt_tree::proofs::Fronts::front_of_more), unfolding(crate::specs::Written::opening_written))]
pub(crate) fn append_opening(
    alloc: Global,
    tag: &Text,
    attributes: &[Attribute<Closure>],
    tildes: &Row<Tilde>,
    into: &mut Vec<u8>,
) -> Result<(), NoMemory>
    ensures text { OnOk result (into.new.items ≡ into.old.items ++ opening_written tildes.now tag.now attributes.now) }
    ensures kept { OnErr result (StartsWith into.new.items into.old.items) }
{
    append(b"<", into)?;
    append(tag.as_bytes(), into)?;
    append_attributes(alloc, attributes, tildes, into)?;
    append(b">", into)
}

/// Appends a closing tag.
///
/// # Errors
/// `NoMemory`; a beginning of the text may then have been appended.
#[tactic(auto, using(mt_tree::proofs::Fronts::front_of_front, mt_tree::proofs::Fronts::front_of_more), unfolding(crate::specs::Written::closing_written))]
pub(crate) fn append_closing(tag: &Text, into: &mut Vec<u8>) -> Result<(), NoMemory>
    ensures text { OnOk result (into.new.items ≡ into.old.items ++ closing_written tag.now) }
    ensures kept { OnErr result (StartsWith into.new.items into.old.items) }
{
    append(b"</", into)?;
    append(tag.as_bytes(), into)?;
    append(b">", into)
}

/// Appends a script with its tags.
///
/// # Errors
/// `NoMemory`; a beginning of the text may then have been appended.
#[tactic(auto, using(mt_tree::proofs::Fronts::front_of_front, mt_tree::proofs::Fronts::front_of_more), unfolding(crate::specs::Written::script_written))]
pub(crate) fn append_script(
    alloc: Global,
    closure: &Closure,
    tildes: &Row<Tilde>,
    into: &mut Vec<u8>,
) -> Result<(), NoMemory>
    ensures text { OnOk result (into.new.items ≡ into.old.items ++ script_written tildes.now closure.now) }
    ensures kept { OnErr result (StartsWith into.new.items into.old.items) }
{
    append(b"<script>", into)?;
    append_code(alloc, closure, tildes, into)?;
    append(b"</script>", into)
}
