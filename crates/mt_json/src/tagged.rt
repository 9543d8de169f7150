ghost use Rattle.std.specs.Prelude.{◌≡◌, codes, Some, option_map};
ghost use Rattle.std.specs.Str.{chars, bytes_eq};
ghost use Rattle.serde_json.specs.View.{view, items_view, members_view, number_view};
ghost use Rattle.serde_json.specs.Find.{as_i64};
ghost use Rattle.mt_json.specs.Outcome.{Gives};
ghost use Rattle.mt_json.specs.Tagged.{datum_of, data_of, tagged_of, entries_in, entries_of, entry_of, pair_of, text_of};

use crate::refusal::DataRefusal;
use mt_tree::{Data, Entry, Row, Text};
use serde_json::{Map, Number, Value};
use std::alloc::Global;

fn number(n: &Number) -> Result<i64, DataRefusal>
    ensures { Gives result (as_i64 (number_view n.now)) }
{
    match n.as_i64() {
        Some(n) => Ok(n),
        None => Err(DataRefusal::NotData),
    }
}

/// The datum that a JSON value stands for.
#[cycle(tagged)]
pub(crate) fn datum(alloc: Global, value: &Value) -> Result<Data, DataRefusal>
    ensures { Gives result (datum_of (view value.now)) }
{
    match value {
        Value::Null => Ok(Data::Null),
        Value::Bool(b) => Ok(Data::Bool(*b)),
        Value::Number(n) => Ok(Data::Num(number(n)?)),
        Value::String(text) => Ok(Data::Text(Text::from_str(alloc, text.as_str())?)),
        Value::Array(values) => Ok(Data::Arr(data(alloc, values.as_slice())?)),
        Value::Object(members) => tagged(alloc, members),
    }
}

/// The data that a list of JSON values stands for.
#[cycle(tagged)]
pub(crate) fn data(alloc: Global, values: &[Value]) -> Result<Row<Data>, DataRefusal>
    ensures { Gives result (data_of (items_view values.now)) }
{
    let mut found = Vec::new(alloc);
    for value in values {
        let datum = datum(alloc, value)?;
        found.push(datum)?;
    }
    Ok(Row::from_vec(alloc, found)?)
}

#[cycle(tagged)]
fn tagged(alloc: Global, members: &Map<String, Value>) -> Result<Data, DataRefusal>
    ensures { Gives result (tagged_of (members_view members.now.entries)) }
{
    match members.iter().next() {
        None => Err(DataRefusal::NotData),
        Some((tag, value)) => match tag.as_str() {
            "o" => Ok(Data::Obj(object(alloc, value)?)),
            "s" => Ok(Data::Svc(text(alloc, value)?)),
            _ => Ok(Data::Undefined),
        },
    }
}

fn text(alloc: Global, value: &Value) -> Result<Text, DataRefusal>
    ensures { Gives result (text_of (view value.now)) }
{
    match value {
        Value::String(text) => Ok(Text::from_str(alloc, text.as_str())?),
        _ => Err(DataRefusal::NotData),
    }
}

#[cycle(tagged)]
fn object(alloc: Global, value: &Value) -> Result<Row<Entry>, DataRefusal>
    ensures { Gives result (entries_in (view value.now)) }
{
    match value {
        Value::Array(values) => entries(alloc, values.as_slice()),
        _ => Err(DataRefusal::NotData),
    }
}

#[cycle(tagged)]
fn entries(alloc: Global, values: &[Value]) -> Result<Row<Entry>, DataRefusal>
    ensures { Gives result (entries_of (items_view values.now)) }
{
    let mut found = Vec::new(alloc);
    for value in values {
        let entry = entry(alloc, value)?;
        found.push(entry)?;
    }
    Ok(Row::from_vec(alloc, found)?)
}

#[cycle(tagged)]
fn entry(alloc: Global, value: &Value) -> Result<Entry, DataRefusal>
    ensures { Gives result (entry_of (view value.now)) }
{
    match value {
        Value::Array(pair) => named(alloc, pair.as_slice()),
        _ => Err(DataRefusal::NotData),
    }
}

#[cycle(tagged)]
#[tactic(auto, using(crate::proofs::Walks::too_short, crate::proofs::Walks::too_long))]
fn named(alloc: Global, pair: &[Value]) -> Result<Entry, DataRefusal>
    ensures { Gives result (pair_of (items_view pair.now)) }
{
    let [name, value] = pair else {
        return Err(DataRefusal::NotData);
    };
    let name = text(alloc, name)?;
    let value = datum(alloc, value)?;
    Ok(Entry { name, value })
}
