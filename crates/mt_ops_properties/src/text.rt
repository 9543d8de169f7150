ghost use Rattle.std.specs.Prelude.{◌≡◌, pos};
ghost use Rattle.mt_ops.specs.Errors.{Answers};
ghost use Rattle.mt_ops_properties.specs.Texts as spec;
ghost use Rattle.mt_tree.specs.Text.{units_of};

use crate::key::{is_length, no_such};
use mt_ops::{ErrorKind, Refusal};
use mt_tree::{Text, cut};
use mt_value::Value;
use std::alloc::Global;

/// The length in units of UTF-16.
#[tactic(auto, using(crate::proofs::Texts::no_more_than_bytes))]
fn length(text: &Text) -> i64
    ensures { result ≡ pos (units_of text.now) }
{
    // No text has more units than bytes, so the number fits.
    let _bytes = text.as_str().len();
    text.units() as i64
}

/// The text of one unit.
fn unit_at(alloc: Global, text: &Text, n: i64) -> Result<Value, Refusal>
    ensures { Answers (spec.unit_at text.now n) result }
{
    if n < 0 || n >= length(text) {
        return Ok(Value::Undefined);
    }
    let at = n as usize;
    match cut(alloc, text, at, at + 1)? {
        Some(part) => Ok(Value::Text(part)),
        None => Err(Refusal::Error(ErrorKind::CutInsideCharacter)),
    }
}

/// Reads a unit or the length of a text.
#[tactic(auto, unfolding(crate::specs::Texts::text_property))]
pub fn text_property(alloc: Global, text: &Text, key: &Value) -> Result<Value, Refusal>
    ensures { Answers (spec.text_property text.now key.now) result }
{
    match key {
        Value::Num(n) => unit_at(alloc, text, *n),
        Value::Text(name) if is_length(name) => Ok(Value::Num(length(text))),
        _ => Err(Refusal::Error(no_such(alloc, key)?)),
    }
}
