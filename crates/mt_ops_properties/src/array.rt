ghost use Rattle.std.specs.Prelude.{◌≡◌, ◌<◌, ◌^◌, length, OnOk};
ghost use Rattle.std.specs.Option.{option_copied};
ghost use Rattle.mt_ops.specs.Errors.{Answers};
ghost use Rattle.mt_ops_properties.specs.Arrays as spec;
ghost use Rattle.mt_ops_properties.specs.Changes.{Leaves};

use crate::key::{is_length, no_such};
use mt_ops::{ErrorKind, Refusal};
use mt_tree::{Buffer, NUMBER_LIMIT};
use mt_value::Value;
use std::alloc::Global;

/// The greatest number of items of an array, and of properties of an object: the greatest number of the language.
pub const MOST: usize = NUMBER_LIMIT as usize;

fn item_at(items: &[Value], n: i64) -> Option<&Value>
    ensures { option_copied result ≡ spec.item_at items.now n }
{
    if n < 0 { None } else { items.get(n as usize) }
}

/// Reads an item or the length of an array.
#[tactic(auto, unfolding(crate::specs::Arrays::array_property))]
pub fn array_property(alloc: Global, items: &[Value], key: &Value) -> Result<Value, Refusal>
    ensures { Answers (spec.array_property items.now key.now) result }
{
    match key {
        Value::Num(n) => match item_at(items, *n) {
            Some(item) => Ok(item.share()?),
            None => Ok(Value::Undefined),
        },
        Value::Text(name) if is_length(name) => Ok(Value::Num(items.len() as i64)),
        _ => Err(Refusal::Error(no_such(alloc, key)?)),
    }
}

/// Replaces the item at an index, or appends one at the length.
fn write_item(items: &mut Buffer<Value>, n: i64, value: Value) -> Result<(), Refusal>
    ensures meant { Leaves (spec.item_written items.old n value) result items.old items.new }
    ensures count { length items.old < 2 ^ 53 → OnOk result (length items.new < 2 ^ 53) }
{
    let count = items.items().len();
    if n < 0 || n as usize > count {
        return Err(Refusal::Error(ErrorKind::IndexOutOfRange));
    }
    if (n as usize) < count {
        let _old = items.replace(n as usize, value);
        return Ok(());
    }
    if count >= MOST {
        return Err(Refusal::NoMemory);
    }
    items.push(value)?;
    Ok(())
}

/// Writes an item of an array.
#[tactic(auto, unfolding(crate::specs::Arrays::array_written))]
pub fn write_array(
    alloc: Global,
    items: &mut Buffer<Value>,
    key: &Value,
    value: Value,
) -> Result<(), Refusal>
    ensures meant { Leaves (spec.array_written items.old key.now value) result items.old items.new }
    ensures count { length items.old < 2 ^ 53 → OnOk result (length items.new < 2 ^ 53) }
{
    match key {
        Value::Num(n) => write_item(items, *n, value),
        _ => Err(Refusal::Error(no_such(alloc, key)?)),
    }
}
