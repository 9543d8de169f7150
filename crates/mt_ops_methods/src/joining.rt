ghost use Rattle.std.specs.Prelude.{◌≡◌, ◌++◌, OnOk, IfOk};
ghost use Rattle.std.specs.List.{list_all};
ghost use Rattle.std.specs.Option.{option_copied};
ghost use Rattle.std.specs.Str.{chars};
ghost use Rattle.std.specs.String.{string_bytes};
ghost use Rattle.mt_ops_methods.specs.Costs.{counted};
ghost use Rattle.mt_ops_methods.specs.Joining as spec;
ghost use Rattle.mt_ops.specs.Errors.{Answers};
ghost use Rattle.mt_tree.specs.Text.{units_of};

use crate::name::{MethodName, bad_argument};
use mt_ops::{ErrorKind, Refusal, join_text, push_text};
use mt_tree::{NoMemory, TEXT_LIMIT, Text, decimal_units};
use mt_value::Value;
use std::alloc::Global;

/// Whether a text stands for the value. Takes no memory.
#[tactic(auto, unfolding(mt_ops::specs::Texts::join_text))]
fn is_shown(value: &Value) -> bool
    ensures { result ≡ spec.is_shown value.now }
{
    match value {
        Value::Undefined | Value::Null | Value::Num(_) | Value::Text(_) => true,
        Value::Bool(true) => true,
        Value::Bool(false) => true,
        _ => false,
    }
}

/// Whether a text stands for each item. Takes no memory.
pub fn are_shown(items: &[Value]) -> bool
    ensures { result ≡ list_all spec.is_shown items.now }
{
    items.iter().all(is_shown)
}

/// The units of the text that stands for the value. Takes no memory.
#[tactic(auto, unfolding(mt_ops::specs::Texts::join_text))]
fn shown_units(value: &Value) -> u64
    ensures { result ≡ units_of (spec.shown value.now) }
{
    match value {
        Value::Undefined => 9,
        Value::Null | Value::Bool(true) => 4,
        Value::Bool(false) => 5,
        Value::Num(n) => decimal_units(*n),
        Value::Text(text) => text.units(),
        _ => 0,
    }
}

/// The units of the items joined, and the greatest number of the type where they are more. Takes no memory.
pub fn joined_units(items: &[Value], separator: &Text) -> u64
    ensures { result ≡ counted (units_of (spec.joined separator.now items.now)) }
{
    match items.split_first() {
        None => 0,
        Some((first, rest)) => {
            let between = separator.units();
            let mut units = shown_units(first);
            for item in rest {
                units = units
                    .saturating_add(between)
                    .saturating_add(shown_units(item));
            }
            units
        }
    }
}

/// Puts what stands for the value behind a text.
fn put(alloc: Global, into: &mut String, value: &Value) -> Result<(), NoMemory>
    ensures { OnOk result (chars (string_bytes into.new) ≡ chars (string_bytes into.old) ++ spec.shown value.now) }
{
    if let Some(text) = join_text(alloc, value)? {
        push_text(into, text.as_str())?;
    }
    Ok(())
}

/// The items joined.
fn joined(alloc: Global, items: &[Value], separator: &Text) -> Result<Text, NoMemory>
    ensures { IfOk result (λ text. text ≡ spec.joined separator.now items.now) }
{
    let mut made = String::new(alloc);
    match items.split_first() {
        None => {}
        Some((first, rest)) => {
            let between = separator.as_str();
            put(alloc, &mut made, first)?;
            for item in rest {
                push_text(&mut made, between)?;
                put(alloc, &mut made, item)?;
            }
        }
    }
    Text::from_str(alloc, made.as_str())
}

/// The value of `join`.
#[tactic(auto, unfolding(crate::specs::Joining::join))]
pub fn join(alloc: Global, items: &[Value], separator: Option<&Value>) -> Result<Value, Refusal>
    ensures { Answers (spec.join items.now (option_copied separator.entry)) result }
{
    match separator {
        Some(Value::Text(separator)) if are_shown(items) => {
            if joined_units(items, separator) > TEXT_LIMIT {
                return Err(Refusal::Error(ErrorKind::TextTooLong));
            }
            Ok(Value::Text(joined(alloc, items, separator)?))
        }
        _ => Err(Refusal::Error(bad_argument(alloc, MethodName::Join)?)),
    }
}
