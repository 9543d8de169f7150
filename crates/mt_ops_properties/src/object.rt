ghost use Rattle.std.specs.Prelude.{◌≡◌, ◌<◌, ◌^◌, length, IfSome, OnOk, codes};
ghost use Rattle.std.specs.List.{list_all};
ghost use Rattle.std.specs.Str.{chars};
ghost use Rattle.mt_ops.specs.Errors.{Answers};
ghost use Rattle.mt_ops_properties.specs.Changes.{Leaves};
ghost use Rattle.mt_ops_properties.specs.Objects as spec;
ghost use Rattle.mt_syntax.specs.Data as names;
ghost use Rattle.mt_value.specs.Names.{is_same};

use crate::array::MOST;
use crate::key::bad_name;
use mt_ops::Refusal;
use mt_tree::{Buffer, NoMemory, Text};
use mt_value::{Property, Value};
use std::alloc::Global;

fn is_digit(c: char) -> bool
    ensures { result ≡ names.is_digit c }
{
    '0' <= c && c <= '9'
}

fn are_digits(text: &str) -> bool
    ensures { result ≡ list_all names.is_digit (chars text.now) }
{
    for c in text.chars() {
        if !is_digit(c) {
            return false;
        }
    }
    true
}

fn begins_from_one(text: &str) -> bool
    ensures { result ≡ spec.begins_from_one (chars text.now) }
{
    match text.chars().next() {
        Some(c) => is_digit(c) && c != '0',
        None => false,
    }
}

fn is_zero(name: &Text) -> bool
    ensures { result ≡ is_same name.now (codes "0") }
{
    name.is("0")
}

#[tactic(auto, using(crate::proofs::Names::spells_is))]
fn spells_whole_number(name: &Text) -> bool
    ensures { result ≡ names.spells_whole_number name.now }
{
    is_zero(name) || begins_from_one(name.as_str()) && are_digits(name.as_str())
}

/// The key as the name of a property, where it can be one.
#[tactic(auto, unfolding(crate::specs::Objects::name_of))]
fn name_of(alloc: Global, key: &Value) -> Result<Text, Refusal>
    ensures { Answers (spec.name_of key.now) result }
{
    match key {
        Value::Text(name) => {
            if spells_whole_number(name) {
                Err(Refusal::Error(bad_name(alloc, key)?))
            } else {
                Ok(name.share()?)
            }
        }
        _ => Err(Refusal::Error(bad_name(alloc, key)?)),
    }
}

/// The place of the property of that name. Takes no memory.
pub fn place_of(name: &Text, properties: &[Property]) -> Option<usize>
    ensures place { result ≡ spec.place_of name.now properties.now }
    ensures within { IfSome result (λ at. at < length properties.now) }
{
    for (i, property) in properties.iter().enumerate() {
        if *name == property.name {
            return Some(i);
        }
    }
    None
}

/// Reads a property of an object.
#[tactic(auto, unfolding(crate::specs::Objects::object_property))]
pub fn object_property(
    alloc: Global,
    properties: &[Property],
    key: &Value,
) -> Result<Value, Refusal>
    ensures { Answers (spec.object_property properties.now key.now) result }
{
    let name = name_of(alloc, key)?;
    match place_of(&name, properties) {
        Some(at) => Ok(properties[at].value.share()?),
        None => Ok(Value::Undefined),
    }
}

/// Gives a property its value: one of that name keeps its place, and a new one goes last.
fn put(properties: &mut Buffer<Property>, property: Property) -> Result<(), NoMemory>
    ensures meant { OnOk result (properties.new ≡ spec.with_property properties.old property.name property.value) }
    ensures count { length properties.old < 2 ^ 53 → OnOk result (length properties.new < 2 ^ 53) }
{
    match place_of(&property.name, properties.items()) {
        Some(at) => {
            let _old = properties.replace(at, property);
            Ok(())
        }
        None => {
            if properties.items().len() >= MOST {
                return Err(NoMemory);
            }
            properties.push(property)
        }
    }
}

/// Gives a property of an object its value by its key: one that is there keeps its place, and a new one goes last.
///
/// # Errors
/// `BadPropertyName` exactly where the key is no text or spells a whole number; the properties are then as before. `NoMemory`, also
/// where they would pass 2^53 - 1.
#[tactic(auto, unfolding(crate::specs::Objects::object_written))]
pub fn write_object(
    alloc: Global,
    properties: &mut Buffer<Property>,
    key: &Value,
    value: Value,
) -> Result<(), Refusal>
    ensures meant { Leaves (spec.object_written properties.old key.now value) result properties.old properties.new }
    ensures count { length properties.old < 2 ^ 53 → OnOk result (length properties.new < 2 ^ 53) }
{
    let name = name_of(alloc, key)?;
    put(properties, Property { name, value })?;
    Ok(())
}
