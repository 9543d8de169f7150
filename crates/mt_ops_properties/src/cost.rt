ghost use Rattle.std.specs.Prelude.{◌≡◌, ◌<◌, ◌||◌, ◌^◌, IfSome};
ghost use Rattle.std.specs.Option.{option_map};
ghost use Rattle.mt_ops.specs.Operators as operators;
ghost use Rattle.mt_ops.specs.Texts.{join_text};
ghost use Rattle.mt_ops_properties.specs.Costs as spec;
ghost use Rattle.mt_tree.specs.Text.{units_of};

use mt_ops::type_name;
use mt_tree::{Binary, Text, Unary, decimal_units};
use mt_value::Value;

/// How many units of UTF-16 of a text that is made, compared or cut cost one step.
const UNITS_OF_A_STEP: u64 = 256;

/// The steps that an operator between two operands costs beside the one of its node. Takes no memory.
#[tactic(auto, unfolding(crate::specs::Costs::binary_units))]
pub fn binary_cost(op: Binary, left: &Value, right: &Value) -> u64
    ensures { result ≡ spec.steps (spec.binary_units op left.now right.now) }
{
    let units = match op {
        Binary::Add => addition_units(left, right),
        Binary::Sub | Binary::Mul | Binary::Div | Binary::Rem => 0,
        _ => compared_units(left, right),
    };
    units / UNITS_OF_A_STEP
}

/// The steps that an operator before its operand costs beside the one of its node. Takes no memory.
#[tactic(auto, unfolding(crate::specs::Costs::unary_units), using(crate::proofs::Costs::units_plain))]
pub fn unary_cost(op: Unary, operand: &Value) -> u64
    ensures { result ≡ spec.steps (spec.unary_units op operand.now) }
{
    let units = match op {
        Unary::Typeof => type_name(operand).len() as u64,
        _ => 0,
    };
    units / UNITS_OF_A_STEP
}

/// The steps that reading a property costs beside the one of its node. Writing one costs none. Takes no memory.
#[tactic(auto, unfolding(crate::specs::Costs::property_units))]
pub fn property_cost(base: &Value, key: &Value) -> u64
    ensures { result ≡ spec.steps (spec.property_units base.now key.now) }
{
    match (base, key) {
        (Value::Text(text), Value::Num(_)) => units(text) / UNITS_OF_A_STEP,
        _ => 0,
    }
}

/// The units of a text. No text has more of them than bytes, so those of two texts have a sum.
#[tactic(auto, using(crate::proofs::Texts::no_more_than_bytes))]
fn units(text: &Text) -> u64
    ensures units { result ≡ units_of text.now }
    ensures small { result < 2 ^ 63 }
{
    let _bytes = text.as_str().len();
    text.units()
}

/// The units of what stands for a value in a text.
#[tactic(auto, unfolding(mt_ops::specs::Texts::join_text))]
fn join_units(value: &Value) -> Option<u64>
    ensures units { result ≡ option_map units_of (join_text value.now) }
    ensures small { IfSome result (λ units. units < 2 ^ 63) }
{
    match value {
        Value::Undefined => Some(9),
        Value::Null | Value::Bool(true) => Some(4),
        Value::Bool(false) => Some(5),
        Value::Num(n) => Some(decimal_units(*n)),
        Value::Text(text) => Some(units(text)),
        _ => None,
    }
}

fn is_text(value: &Value) -> bool
    ensures { result ≡ operators.is_text value.now }
{
    matches!(value, Value::Text(_))
}

fn has_text(left: &Value, right: &Value) -> bool
    ensures { result ≡ (operators.is_text left.now || operators.is_text right.now) }
{
    is_text(left) || is_text(right)
}

#[tactic(auto, unfolding(crate::specs::Costs::addition_units))]
fn addition_units(left: &Value, right: &Value) -> u64
    ensures { result ≡ spec.addition_units left.now right.now }
{
    if !has_text(left, right) {
        return 0;
    }
    match (join_units(left), join_units(right)) {
        (Some(a), Some(b)) => a + b,
        _ => 0,
    }
}

#[tactic(auto, unfolding(crate::specs::Costs::compared_units))]
fn compared_units(left: &Value, right: &Value) -> u64
    ensures { result ≡ spec.compared_units left.now right.now }
{
    match (left, right) {
        (Value::Text(a), Value::Text(b)) => units(a) + units(b),
        _ => 0,
    }
}
