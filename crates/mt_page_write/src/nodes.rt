ghost use Rattle.std.specs.Prelude.{◌≡◌, ◌++◌, ◌+◌, ◌-◌, ◌<◌, ◌↔◌, flat_map, length, IsTrue, OnOk, OnErr, Err};
ghost use Rattle.std.specs.Io.{StartsWith};
ghost use Rattle.mt_tree.specs.Limits.{body_limit};
ghost use Rattle.mt_page_write.specs.Written.{html_written, text_written};

use crate::closures::{append_closing, append_opening, append_script};
use crate::escaping::append_escaped;
use crate::refusal::PageRefusal;
use mt_syntax::Tilde;
use mt_tree::{BODY_LIMIT, Closure, Html, NoMemory, Row, Text, append, tag_void};
use std::alloc::Global;

/// Whether more than 4,194,304 bytes stand behind the place `start`.
pub(crate) fn is_past_limit(start: usize, into: &Vec<u8>) -> bool
    ensures { IsTrue result ↔ (body_limit < length into.now.items - start) }
{
    into.len().saturating_sub(start) > BODY_LIMIT
}

#[tactic(auto, unfolding(crate::specs::Written::text_written))]
fn append_text(text: &Text, into: &mut Vec<u8>) -> Result<(), NoMemory>
    ensures text { OnOk result (into.new.items ≡ into.old.items ++ text_written text.now) }
    ensures kept { OnErr result (StartsWith into.new.items into.old.items) }
{
    append_escaped(text.as_bytes(), into)
}

/// Appends a node. Stops soon after more than 4,194,304 bytes stand behind the place `start`, since a tree that shares its parts may
/// have a far longer text than it takes memory.
///
/// # Errors
/// `TooLong` only where more than 4,194,304 bytes would stand behind `start`; `NoMemory`. A beginning of the text may then have been
/// appended.
#[cycle(html)]
#[tactic(auto, using(crate::proofs::Lengths::flat_map_map, mt_tree::proofs::Fronts::front_of_front, mt_tree::proofs::Fronts::front_of_more))]
pub(crate) fn append_html(
    alloc: Global,
    html: &Html<Closure>,
    tildes: &Row<Tilde>,
    start: usize,
    into: &mut Vec<u8>,
) -> Result<(), PageRefusal>
    ensures text { OnOk result (into.new.items ≡ into.old.items ++ html_written tildes.now html.now) }
    ensures kept { OnErr result (StartsWith into.new.items into.old.items) }
    ensures long { result ≡ Err PageRefusal.TooLong → body_limit < (length into.old.items + length (html_written tildes.now html.now)) - start }
{
    match html {
        Html::Text(text) => Ok(append_text(text, into)?),
        Html::Script(closure) => Ok(append_script(alloc, closure, tildes, into)?),
        Html::Element(element) => {
            append_opening(
                alloc,
                &element.tag,
                element.attributes.items(),
                tildes,
                into,
            )?;
            if tag_void(element.tag.as_bytes()) {
                return Ok(());
            }
            append_children(alloc, element.children.items(), tildes, start, into)?;
            Ok(append_closing(&element.tag, into)?)
        }
    }
}

#[cycle(html)]
#[tactic(auto, using(mt_tree::proofs::Fronts::front_of_front, mt_tree::proofs::Fronts::front_of_more))]
fn append_children(
    alloc: Global,
    children: &[Html<Closure>],
    tildes: &Row<Tilde>,
    start: usize,
    into: &mut Vec<u8>,
) -> Result<(), PageRefusal>
    ensures text { OnOk result (into.new.items ≡ into.old.items ++ flat_map (html_written tildes.now) children.now) }
    ensures kept { OnErr result (StartsWith into.new.items into.old.items) }
    ensures long { result ≡ Err PageRefusal.TooLong → body_limit < (length into.old.items + length (flat_map (html_written tildes.now) children.now)) - start }
{
    for child in children {
        append_html(alloc, child, tildes, start, into)?;
        if is_past_limit(start, into) {
            return Err(PageRefusal::TooLong);
        }
    }
    Ok(())
}
