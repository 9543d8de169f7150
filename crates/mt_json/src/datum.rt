ghost use Rattle.std.specs.Prelude.{◌≡◌, ◌&&◌, map, IfOk};
ghost use Rattle.std.specs.List.{list_all};
ghost use Rattle.std.specs.Str.{all_scalars};
ghost use Rattle.mt_syntax.specs.Data.{is_data, is_in_range as within_range};
ghost use Rattle.mt_json.specs.Entries.{entry_is_data};

use crate::names::have_property_names;
use mt_tree::{Data, Entry, NoMemory, Text};
use std::alloc::Global;

// The least number that is too large, 2^53.
const TOO_LARGE: i64 = 9_007_199_254_740_992;

fn is_in_range(number: i64) -> bool
    ensures { result ≡ within_range number }
{
    -TOO_LARGE < number && number < TOO_LARGE
}

// Each text holds characters, so this is a fact about texts rather than a test.
fn is_text(text: &Text) -> bool
    ensures { result ≡ all_scalars text.now }
{
    let _characters = text.as_str();
    true
}

/// Whether a tree is data of the language: numbers within 2^53 - 1 in size, and the names of an object distinct, none of
/// which spells a whole number.
///
/// # Errors
/// `NoMemory`. The memory taken is for the names of one object at a time.
#[cycle(datum)]
#[tactic(auto, using(crate::proofs::DataLevels::data_of_items, crate::proofs::DataLevels::data_of_entries))]
pub(crate) fn is_datum(alloc: Global, datum: &Data) -> Result<bool, NoMemory>
    ensures { IfOk result (λ fits. fits ≡ is_data datum.now) }
{
    match datum {
        Data::Undefined | Data::Null | Data::Bool(_) => Ok(true),
        Data::Num(number) => Ok(is_in_range(*number)),
        Data::Text(text) => Ok(is_text(text)),
        Data::Arr(items) => are_data(alloc, items.items()),
        Data::Obj(entries) => {
            let named = have_property_names(alloc, entries.items())?;
            Ok(named && have_data(alloc, entries.items())?)
        }
        Data::Svc(name) => Ok(is_text(name)),
    }
}

/// Whether each of the trees is data of the language.
///
/// # Errors
/// `NoMemory`.
#[cycle(datum)]
pub(crate) fn are_data(alloc: Global, items: &[Data]) -> Result<bool, NoMemory>
    ensures { IfOk result (λ fit. fit ≡ list_all is_data items.now) }
{
    for item in items {
        if !is_datum(alloc, item)? {
            return Ok(false);
        }
    }
    Ok(true)
}

#[cycle(datum)]
#[tactic(auto, using(crate::proofs::DataLevels::data_of_entry))]
fn has_datum(alloc: Global, entry: &Entry) -> Result<bool, NoMemory>
    ensures { IfOk result (λ fits. fits ≡ entry_is_data entry.now) }
{
    Ok(is_text(&entry.name) && is_datum(alloc, &entry.value)?)
}

#[cycle(datum)]
fn have_data(alloc: Global, entries: &[Entry]) -> Result<bool, NoMemory>
    ensures { IfOk result (λ fit. fit ≡ list_all entry_is_data entries.now) }
{
    for entry in entries {
        if !has_datum(alloc, entry)? {
            return Ok(false);
        }
    }
    Ok(true)
}
