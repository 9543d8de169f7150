ghost use Rattle.std.specs.Prelude.{◌≡◌, ◌<◌, length, slice_get, slice_set, Some, IfOk, OnOk};
ghost use Rattle.std.specs.Option.{option_copied};
ghost use Rattle.mt_ops.specs.Errors.{Answers, settled};
ghost use Rattle.mt_ops.specs.Lawful.{StaysLawful};
ghost use Rattle.mt_ops_properties.specs.Changes.{Leaves};
ghost use Rattle.mt_ops_properties.specs.Counts.{HoldsFew};
ghost use Rattle.mt_ops_properties.specs.Properties as spec;
ghost use Rattle.mt_value.specs.Lawful.{Keeps, Lawful, LawfulValue};

use crate::array::{array_property, write_array};
use crate::key::no_such;
use crate::object::{object_property, write_object};
use crate::text::text_property;
use mt_ops::{Outcome, Refusal, settle, throw};
use mt_tree::NoMemory;
use mt_value::{Address, Cell, Store, Value};
use std::alloc::Global;

/// Reads the property of a value by its key. An array gives its items by number and its length, a text the text of one of
/// its units of UTF-16 by number and its length in units, an object the values of its names; what isn't there is
/// undefined. It throws `NoSuchProperty` at any other base or key, `BadPropertyName` at a key of an object that is no
/// text or spells a whole number, and `CutInsideCharacter` at a unit that is half of a character.
///
/// # Errors
/// `NoMemory`.
pub fn get_property(
    alloc: Global,
    base: &Value,
    key: &Value,
    store: &mut Store,
) -> Result<Outcome, NoMemory>
    ensures meant { IfOk result (λ outcome. (outcome, store.new) ≡ settled (spec.property store.old base.now key.now) store.old) }
    ensures lawful { Lawful store.old → LawfulValue store.old base.now → IfOk result (λ outcome. StaysLawful store.old store.new outcome) }
{
    let answer = property(alloc, base, key, store);
    settle(alloc, answer, store)
}

#[tactic(auto, unfolding(crate::specs::Properties::property))]
fn property(alloc: Global, base: &Value, key: &Value, store: &Store) -> Result<Value, Refusal>
    ensures { Answers (spec.property store.now base.now key.now) result }
{
    match base {
        Value::Text(text) => text_property(alloc, text, key),
        Value::Arr(at) | Value::Obj(at) => cell_property(alloc, store.get(*at), key),
        _ => Err(Refusal::Error(no_such(alloc, key)?)),
    }
}

fn cell_property(alloc: Global, cell: Option<&Cell>, key: &Value) -> Result<Value, Refusal>
    ensures { Answers (spec.cell_property (option_copied cell.entry) key.now) result }
{
    match cell {
        Some(Cell::Arr(items)) => array_property(alloc, items.items(), key),
        Some(Cell::Obj(properties)) => object_property(alloc, properties.items(), key),
        _ => Err(Refusal::Error(no_such(alloc, key)?)),
    }
}

/// Writes a property of an array or an object by its key, and answers the value that was written. An item is replaced by
/// its index, or appended by the length; a property that is there keeps its place, and a new one goes last. It throws
/// `NoSuchProperty` at any other base or key, `IndexOutOfRange` at any other index, and `BadPropertyName` at a key of an
/// object that is no text or spells a whole number. Of the store only the cell that the base names changes, and at an
/// error none.
///
/// # Errors
/// `NoMemory`, also where an array or an object would pass 2^53 - 1 items or properties.
pub fn set_property(
    alloc: Global,
    base: &Value,
    key: &Value,
    value: &Value,
    store: &mut Store,
) -> Result<Outcome, NoMemory>
    ensures meant { IfOk result (λ outcome. (outcome, store.new) ≡ spec.written store.old base.now key.now value.now) }
    ensures lawful { Lawful store.old → LawfulValue store.old key.now → LawfulValue store.old value.now → IfOk result (λ outcome. StaysLawful store.old store.new outcome) }
{
    match write(alloc, base, key, value, store) {
        Ok(()) => Ok(Outcome::Value(value.share()?)),
        Err(Refusal::Error(error)) => throw(alloc, &error, store),
        Err(Refusal::NoMemory) => Err(NoMemory),
    }
}

#[tactic(auto, unfolding(crate::specs::Properties::store_written))]
fn write(
    alloc: Global,
    base: &Value,
    key: &Value,
    value: &Value,
    store: &mut Store,
) -> Result<(), Refusal>
    ensures meant { Leaves (spec.store_written store.old base.now key.now value.now) result store.old store.new }
    ensures lawful { Lawful store.old → LawfulValue store.old key.now → LawfulValue store.old value.now → OnOk result (Lawful store.new × Keeps store.old store.new) }
{
    match base {
        Value::Arr(at) | Value::Obj(at) => write_at(alloc, *at, key, value, store),
        _ => Err(Refusal::Error(no_such(alloc, key)?)),
    }
}

/// Writes a property of the value in a cell.
fn write_at(
    alloc: Global,
    at: Address,
    key: &Value,
    value: &Value,
    store: &mut Store,
) -> Result<(), Refusal>
    ensures meant { Leaves (spec.with_cell store.old at (spec.cell_written (slice_get store.old at) key.now value.now)) result store.old store.new }
    ensures lawful { Lawful store.old → LawfulValue store.old key.now → LawfulValue store.old value.now → OnOk result (Lawful store.new × Keeps store.old store.new) }
{
    match store.get(at) {
        None => Err(Refusal::Error(no_such(alloc, key)?)),
        Some(_) => change(alloc, at, key, value.share()?, store),
    }
}

/// Takes a cell out, changes it and puts it back.
#[tactic(auto, using(crate::proofs::Cells::put_twice, crate::proofs::Cells::put_same))]
fn change(
    alloc: Global,
    at: Address,
    key: &Value,
    value: Value,
    store: &mut Store,
) -> Result<(), Refusal>
    requires { at < length store.old }
    ensures meant { Leaves (spec.with_cell store.old at (spec.cell_written (slice_get store.old at) key.now value)) result store.old store.new }
    ensures lawful { Lawful store.old → LawfulValue store.old key.now → LawfulValue store.old value → OnOk result (Lawful store.new × Keeps store.old store.new) }
{
    let mut cell = store.exchange(at, Cell::Variable(None));
    let answer = write_cell(alloc, &mut cell, key, value);
    put_back(store, at, cell);
    answer
}

fn put_back(store: &mut Store, at: Address, cell: Cell)
    requires { at < length store.old }
    ensures { store.new ≡ slice_set store.old at cell }
{
    let _placeholder = store.exchange(at, cell);
}

fn write_cell(alloc: Global, cell: &mut Cell, key: &Value, value: Value) -> Result<(), Refusal>
    ensures meant { Leaves (spec.cell_written (Some cell.old) key.now value) result cell.old cell.new }
    ensures count { HoldsFew cell.old → OnOk result (HoldsFew cell.new) }
{
    match cell {
        Cell::Arr(items) => write_array(alloc, items, key, value),
        Cell::Obj(properties) => write_object(alloc, properties, key, value),
        _ => Err(Refusal::Error(no_such(alloc, key)?)),
    }
}
