ghost use Rattle.std.specs.Prelude.{◌≡◌, ◌++◌, OnErr, OnOk, encode_utf8_all, IfOk};
ghost use Rattle.std.specs.Io.{StartsWith};
ghost use Rattle.mt_syntax.specs.DataText.{arguments_text as text_of_arguments};
ghost use Rattle.mt_http_request.specs.Targets.{arguments_query, call_target, service_path};

use crate::escapes::append_escaped;
use mt_json::arguments_text;
use mt_tree::{Data, NoMemory, Row, Text, append};
use std::alloc::Global;

/// Appends the path of the service of this name.
#[tactic(auto, using(mt_tree::proofs::Fronts::front_of_front, mt_tree::proofs::Fronts::front_of_more))]
pub(crate) fn append_path(alloc: Global, service: &Text, into: &mut Vec<u8>) -> Result<(), NoMemory>
    ensures text { OnOk result (into.new.items ≡ into.old.items ++ service_path service.now) }
    ensures kept { OnErr result (StartsWith into.new.items into.old.items) }
{
    append(b"/hop/", into)?;
    append_escaped(alloc, service.as_bytes(), into)
}

/// The tagged JSON of the arguments.
pub(crate) fn text_of(alloc: Global, arguments: &Row<Data>) -> Result<Vec<u8>, NoMemory>
    ensures { IfOk result (λ text. text.items ≡ text_of_arguments arguments.now) }
{
    let mut text = Vec::new(alloc);
    arguments_text(alloc, arguments, &mut text)?;
    Ok(text)
}

#[tactic(auto, using(mt_tree::proofs::Fronts::front_of_front, mt_tree::proofs::Fronts::front_of_more))]
fn append_query(alloc: Global, arguments: &Row<Data>, into: &mut Vec<u8>) -> Result<(), NoMemory>
    ensures text { OnOk result (into.new.items ≡ into.old.items ++ arguments_query arguments.now) }
    ensures kept { OnErr result (StartsWith into.new.items into.old.items) }
{
    if arguments.items().is_empty() {
        return Ok(());
    }
    let text = text_of(alloc, arguments)?;
    append(b"?a=", into)?;
    append_escaped(alloc, &text, into)
}

/// Appends the target that calls the service of this name with these arguments: `/hop/`, the name, and where there are
/// arguments `?a=` and their tagged JSON. In the name and in the JSON each byte but ASCII letters, digits, `-`, `.`, `_` and
/// `~` is escaped.
///
/// # Errors
/// `NoMemory`; a beginning of the text may then have been appended.
#[tactic(auto, using(mt_tree::proofs::Fronts::front_of_front, mt_tree::proofs::Fronts::front_of_more))]
pub fn write_target(
    alloc: Global,
    service: &Text,
    arguments: &Row<Data>,
    into: &mut Vec<u8>,
) -> Result<(), NoMemory>
    ensures text { OnOk result (into.new.items ≡ into.old.items ++ call_target service.now arguments.now) }
    ensures kept { OnErr result (StartsWith into.new.items into.old.items) }
{
    append_path(alloc, service, into)?;
    append_query(alloc, arguments, into)
}
