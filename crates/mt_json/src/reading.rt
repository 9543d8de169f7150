ghost use Rattle.std.specs.Prelude.{◌≡◌, ◌↔◌, ◌∷◌, [], List, Some, None, Err, IsTrue, IfOk};
ghost use Rattle.serde_json.specs.Read.{read};
ghost use Rattle.serde_json.specs.View.{view};
ghost use Rattle.mt_tree.specs.declared.data.Data.{Data};
ghost use Rattle.mt_syntax.specs.DataText.{arguments_text as text_of_arguments, data_text as text_of_data};
ghost use Rattle.mt_syntax.specs.DataLimits.{AreWithinLimits};
ghost use Rattle.mt_json.specs.DataAt.{arguments_at, data_at};
ghost use Rattle.mt_json.specs.Outcome.{Gives};
ghost use Rattle.mt_json.specs.Size.{MayBeData};
ghost use Rattle.mt_json.specs.Tagged.{datum_in, list_in};

use crate::data::{arguments_text, data_text};
use crate::limits::are_within_limits;
use crate::refusal::DataRefusal;
use crate::size::has_few_tokens;
use crate::tagged::{data, datum};
use mt_tree::{Data, NoMemory, Row};
use serde_json::Value;
use std::alloc::Global;
use std::{slice, str};

fn is_within_limits(alloc: Global, datum: &Data) -> Result<bool, NoMemory>
    ensures { IfOk result (λ fits. IsTrue fits ↔ AreWithinLimits (datum.now ∷ [])) }
{
    are_within_limits(alloc, slice::from_ref(datum))
}

fn is_same(a: &[u8], b: &[u8]) -> bool
    ensures { IsTrue result ↔ (a.now ≡ b.now) }
{
    a == b
}

fn value_of(alloc: Global, text: &str) -> Result<Value, DataRefusal>
    ensures read { IfOk result (λ v. read text.now ≡ Some (view v)) }
    ensures refused { result ≡ Err DataRefusal.NotData → read text.now ≡ None }
{
    match Value::from_str(alloc, text) {
        Ok(value) => Ok(value),
        Err(error) => {
            if error.is_memory() {
                Err(DataRefusal::NoMemory)
            } else {
                Err(DataRefusal::NotData)
            }
        }
    }
}

// The JSON value whose text the bytes are, where they can be the text of data at all.
fn value(alloc: Global, bytes: &[u8]) -> Result<Value, DataRefusal>
    ensures read { IfOk result (λ v. read bytes.now ≡ Some (view v)) }
    ensures refused { result ≡ Err DataRefusal.NotData → MayBeData bytes.now → read bytes.now ≡ None }
{
    let Ok(text) = str::from_utf8(bytes) else {
        return Err(DataRefusal::NotData);
    };
    let few = has_few_tokens(alloc, text)?;
    if !few {
        return Err(DataRefusal::NotData);
    }
    value_of(alloc, text)
}

fn datum_in(alloc: Global, bytes: &[u8]) -> Result<Data, DataRefusal>
    ensures { MayBeData bytes.now → Gives result (datum_in bytes.now) }
{
    let json = value(alloc, bytes)?;
    datum(alloc, &json)
}

fn list_in(alloc: Global, bytes: &[u8]) -> Result<Row<Data>, DataRefusal>
    ensures { MayBeData bytes.now → Gives result (list_in bytes.now) }
{
    let json = value(alloc, bytes)?;
    match json.as_array() {
        Some(values) => data(alloc, values.as_slice()),
        None => Err(DataRefusal::NotData),
    }
}

/// The datum whose text the bytes are. Arrays and objects nest at most 40 deep in it, it has at most 20,000 nodes, and its
/// texts, the names of its properties and of its services have at most 262,144 bytes.
///
/// # Errors
/// `NotData` exactly where no datum within these limits has this text; `NoMemory`.
pub fn read_data(alloc: Global, bytes: &[u8]) -> Result<Data, DataRefusal>
    ensures function { Gives result (data_at bytes.now) }
    ensures found { IfOk result (λ d. AreWithinLimits (d ∷ []) × (text_of_data d ≡ bytes.now)) }
    ensures refused { result ≡ Err DataRefusal.NotData → (d : Data) → AreWithinLimits (d ∷ []) → text_of_data d ≡ bytes.now → ⊥ }
{
    let found = datum_in(alloc, bytes)?;
    let fits = is_within_limits(alloc, &found)?;
    if !fits {
        return Err(DataRefusal::NotData);
    }
    let mut text = Vec::new(alloc);
    data_text(alloc, &found, &mut text)?;
    if !is_same(text.as_slice(), bytes) {
        return Err(DataRefusal::NotData);
    }
    Ok(found)
}

/// The list of arguments whose text the bytes are. Each nests at most 40 deep, and the limits on nodes and bytes are those
/// of the whole list.
///
/// # Errors
/// `NotData` exactly where no list of data within these limits has this text; `NoMemory`.
pub fn read_arguments(alloc: Global, bytes: &[u8]) -> Result<Row<Data>, DataRefusal>
    ensures function { Gives result (arguments_at bytes.now) }
    ensures found { IfOk result (λ ds. AreWithinLimits ds × (text_of_arguments ds ≡ bytes.now)) }
    ensures refused { result ≡ Err DataRefusal.NotData → (ds : List Data) → AreWithinLimits ds → text_of_arguments ds ≡ bytes.now → ⊥ }
{
    let found = list_in(alloc, bytes)?;
    let fit = are_within_limits(alloc, found.items())?;
    if !fit {
        return Err(DataRefusal::NotData);
    }
    let mut text = Vec::new(alloc);
    arguments_text(alloc, &found, &mut text)?;
    if !is_same(text.as_slice(), bytes) {
        return Err(DataRefusal::NotData);
    }
    Ok(found)
}
