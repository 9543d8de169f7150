ghost use Rattle.std.specs.Prelude.{◌≡◌, ◌++◌, ◌+◌, ◌-◌, ◌<◌, ◌≤◌, length, OnOk, OnErr, Err};
ghost use Rattle.std.specs.Io.{StartsWith};
ghost use Rattle.mt_tree.specs.Limits.{body_limit};
ghost use Rattle.mt_syntax.specs.PageText.{html_text, page_text};
ghost use Rattle.mt_syntax.specs.Pages.{page_of};
ghost use Rattle.mt_page_write.specs.Written.{html_written};

use crate::nodes::{append_html, is_past_limit};
use crate::refusal::PageRefusal;
use mt_syntax::Tilde;
use mt_tree::{Closure, Html, Row, append};
use std::alloc::Global;

// Appends the bytes and the node, unless they have more bytes than the limit.
#[tactic(auto, using(mt_tree::proofs::Fronts::front_of_front, mt_tree::proofs::Fronts::front_of_more))]
fn append_whole(
    alloc: Global,
    before: &[u8],
    html: &Html<Closure>,
    tildes: &Row<Tilde>,
    into: &mut Vec<u8>,
) -> Result<(), PageRefusal>
    ensures text { OnOk result (into.new.items ≡ into.old.items ++ (before.now ++ html_written tildes.now html.now)) }
    ensures short { OnOk result (length (before.now ++ html_written tildes.now html.now) ≤ body_limit) }
    ensures long { result ≡ Err PageRefusal.TooLong → body_limit < length (before.now ++ html_written tildes.now html.now) }
    ensures kept { OnErr result (StartsWith into.new.items into.old.items) }
{
    let start = into.len();
    append(before, into)?;
    append_html(alloc, html, tildes, start, into)?;
    if is_past_limit(start, into) {
        return Err(PageRefusal::TooLong);
    }
    Ok(())
}

fn write_behind(
    alloc: Global,
    before: &[u8],
    html: &Html<Closure>,
    tildes: &Row<Tilde>,
    into: &mut Vec<u8>,
) -> Result<(), PageRefusal>
    ensures text { OnOk result (into.new.items ≡ into.old.items ++ (before.now ++ html_written tildes.now html.now)) }
    ensures short { OnOk result (length (before.now ++ html_written tildes.now html.now) ≤ body_limit) }
    ensures long { result ≡ Err PageRefusal.TooLong → body_limit < length (before.now ++ html_written tildes.now html.now) }
    ensures kept { OnErr result (into.new.items ≡ into.old.items) }
{
    let start = into.len();
    match append_whole(alloc, before, html, tildes, into) {
        Ok(()) => Ok(()),
        Err(refusal) => {
            into.truncate(start);
            Err(refusal)
        }
    }
}

/// Appends the text of the page whose root is this node, with `<!DOCTYPE html>` before it. Each closure is written as the code that its
/// tilde, by its number in the list, becomes by the closure's values; a number with no tilde has no code.
///
/// # Errors
/// `TooLong` exactly where the text has more than 4,194,304 bytes; `NoMemory`. What stood in the list is then as before.
#[tactic(auto, using(crate::proofs::Carried::text_of_codes))]
pub fn write_page(
    alloc: Global,
    page: &Html<Closure>,
    tildes: &Row<Tilde>,
    into: &mut Vec<u8>,
) -> Result<(), PageRefusal>
    ensures text { OnOk result (into.new.items ≡ into.old.items ++ page_text (page_of tildes.now page.now)) }
    ensures short { OnOk result (length (page_text (page_of tildes.now page.now)) ≤ body_limit) }
    ensures long { result ≡ Err PageRefusal.TooLong → body_limit < length (page_text (page_of tildes.now page.now)) }
    ensures kept { OnErr result (into.new.items ≡ into.old.items) }
{
    write_behind(alloc, b"<!DOCTYPE html>", page, tildes, into)
}

/// Appends the text of the fragment whose root is this node: what `write_page` appends, without `<!DOCTYPE html>`.
///
/// # Errors
/// `TooLong` exactly where the text has more than 4,194,304 bytes; `NoMemory`. What stood in the list is then as before.
#[tactic(auto, using(crate::proofs::Carried::text_of_codes))]
pub fn write_fragment(
    alloc: Global,
    fragment: &Html<Closure>,
    tildes: &Row<Tilde>,
    into: &mut Vec<u8>,
) -> Result<(), PageRefusal>
    ensures text { OnOk result (into.new.items ≡ into.old.items ++ html_text (page_of tildes.now fragment.now)) }
    ensures short { OnOk result (length (html_text (page_of tildes.now fragment.now)) ≤ body_limit) }
    ensures long { result ≡ Err PageRefusal.TooLong → body_limit < length (html_text (page_of tildes.now fragment.now)) }
    ensures kept { OnErr result (into.new.items ≡ into.old.items) }
{
    write_behind(alloc, b"", fragment, tildes, into)
}
