ghost use Rattle.std.specs.Prelude.{◌≡◌, ◌++◌, map, OnOk, OnErr};
ghost use Rattle.std.specs.Io.{StartsWith};
ghost use Rattle.mt_syntax.specs.DataText.{arguments_text as text_of_arguments, data_text as text_of, entry_text as text_of_entry, separated};

use crate::separator::append_separator;
use crate::text::json_text;
use mt_tree::{Data, Entry, NoMemory, Row, append, append_number};
use std::alloc::Global;

/// Appends the tagged JSON of a datum. An object's entries stand in their order.
///
/// # Errors
/// `NoMemory`; a beginning of the text may then have been appended.
#[cycle(write)]
#[tactic(auto, using(mt_tree::proofs::Fronts::front_of_front, mt_tree::proofs::Fronts::front_of_more))]
pub fn data_text(alloc: Global, datum: &Data, into: &mut Vec<u8>) -> Result<(), NoMemory>
    ensures text { OnOk result (into.new.items ≡ into.old.items ++ text_of datum.now) }
    ensures kept { OnErr result (StartsWith into.new.items into.old.items) }
{
    match datum {
        Data::Undefined => append(b"{\"u\":0}", into),
        Data::Null => append(b"null", into),
        Data::Bool(true) => append(b"true", into),
        Data::Bool(false) => append(b"false", into),
        Data::Num(number) => append_number(alloc, *number, into),
        Data::Text(text) => json_text(text, into),
        Data::Arr(items) => {
            append(b"[", into)?;
            append_items(alloc, items.items(), into)?;
            append(b"]", into)
        }
        Data::Obj(entries) => {
            append(b"{\"o\":[", into)?;
            append_entries(alloc, entries.items(), into)?;
            append(b"]}", into)
        }
        Data::Svc(name) => {
            append(b"{\"s\":", into)?;
            json_text(name, into)?;
            append(b"}", into)
        }
    }
}

#[cycle(write)]
#[tactic(auto, using(mt_tree::proofs::Fronts::front_of_front, mt_tree::proofs::Fronts::front_of_more))]
fn append_items(alloc: Global, items: &[Data], into: &mut Vec<u8>) -> Result<(), NoMemory>
    ensures text { OnOk result (into.new.items ≡ into.old.items ++ separated (map text_of items.now)) }
    ensures kept { OnErr result (StartsWith into.new.items into.old.items) }
{
    let mut later = false;
    for item in items {
        append_separator(later, into)?;
        later = true;
        data_text(alloc, item, into)?;
    }
    Ok(())
}

#[cycle(write)]
#[tactic(auto, using(mt_tree::proofs::Fronts::front_of_front, mt_tree::proofs::Fronts::front_of_more))]
fn append_entry(alloc: Global, entry: &Entry, into: &mut Vec<u8>) -> Result<(), NoMemory>
    ensures text { OnOk result (into.new.items ≡ into.old.items ++ text_of_entry entry.now) }
    ensures kept { OnErr result (StartsWith into.new.items into.old.items) }
{
    append(b"[", into)?;
    json_text(&entry.name, into)?;
    append(b",", into)?;
    data_text(alloc, &entry.value, into)?;
    append(b"]", into)
}

#[cycle(write)]
#[tactic(auto, using(mt_tree::proofs::Fronts::front_of_front, mt_tree::proofs::Fronts::front_of_more))]
fn append_entries(alloc: Global, entries: &[Entry], into: &mut Vec<u8>) -> Result<(), NoMemory>
    ensures text { OnOk result (into.new.items ≡ into.old.items ++ separated (map text_of_entry entries.now)) }
    ensures kept { OnErr result (StartsWith into.new.items into.old.items) }
{
    let mut later = false;
    for entry in entries {
        append_separator(later, into)?;
        later = true;
        append_entry(alloc, entry, into)?;
    }
    Ok(())
}

/// Appends the text of a list of arguments, which is that of an array of them.
///
/// # Errors
/// `NoMemory`; a beginning of the text may then have been appended.
#[tactic(auto, using(mt_tree::proofs::Fronts::front_of_front, mt_tree::proofs::Fronts::front_of_more))]
pub fn arguments_text(
    alloc: Global,
    arguments: &Row<Data>,
    into: &mut Vec<u8>,
) -> Result<(), NoMemory>
    ensures text { OnOk result (into.new.items ≡ into.old.items ++ text_of_arguments arguments.now) }
    ensures kept { OnErr result (StartsWith into.new.items into.old.items) }
{
    append(b"[", into)?;
    append_items(alloc, arguments.items(), into)?;
    append(b"]", into)
}
