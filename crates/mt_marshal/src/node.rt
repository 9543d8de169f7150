ghost use Rattle.std.specs.Prelude.{◌≡◌, ◌==◌};
ghost use Rattle.std.specs.List.{list_any};
ghost use Rattle.mt_marshal.specs.Rules as rules;
ghost use Rattle.mt_marshal.specs.Snapshot as spec;
ghost use Rattle.mt_marshal.specs.Walks.{Does};

use crate::counts::Counts;
use crate::refusal::Refused;
use crate::rule::MarshalRule;
use mt_tree::{DATA_BYTE_LIMIT, DATA_NODE_LIMIT};
use mt_value::{Address, Store, Value};

fn is_callable(value: &Value) -> bool
    ensures { result ≡ rules.is_callable value.now }
{
    matches!(value, Value::Fun(_) | Value::Native(_))
}

fn is_html(value: &Value) -> bool
    ensures { result ≡ rules.is_html value.now }
{
    matches!(value, Value::Html(_))
}

fn is_opaque(value: &Value) -> bool
    ensures { result ≡ rules.is_opaque value.now }
{
    matches!(
        value,
        Value::Code(_) | Value::Frame(_) | Value::Node(_) | Value::Event(_)
    )
}

fn is_nested(value: &Value) -> bool
    ensures { result ≡ rules.is_nested value.now }
{
    matches!(value, Value::Arr(_) | Value::Obj(_))
}

fn has(path: &[Address], at: Address) -> bool
    ensures { result ≡ list_any (λ p. p == at) path.now }
{
    path.iter().any(|place| *place == at)
}

fn stands_on(path: &[Address], value: &Value) -> bool
    ensures { result ≡ rules.stands_on path.now value.now }
{
    match value {
        Value::Arr(at) | Value::Obj(at) => has(path, *at),
        _ => false,
    }
}

/// The lowest rule that a node breaks, where that many arrays and objects may stand in one another from it on.
fn broken(levels: u32, path: &[Address], value: &Value, counts: Counts) -> Option<MarshalRule>
    ensures { result ≡ rules.broken levels path.now value.now counts }
{
    if is_callable(value) {
        Some(MarshalRule::M1)
    } else if is_html(value) {
        Some(MarshalRule::M2)
    } else if is_opaque(value) {
        Some(MarshalRule::M3)
    } else if stands_on(path, value) {
        Some(MarshalRule::M4)
    } else if is_nested(value) && levels == 0 || counts.nodes > DATA_NODE_LIMIT {
        Some(MarshalRule::M5)
    } else if counts.bytes > DATA_BYTE_LIMIT {
        Some(MarshalRule::M6)
    } else {
        None
    }
}

/// Counts a node, and then tries the rules on it.
#[tactic(auto, unfolding(crate::specs::Snapshot::enter))]
pub(crate) fn enter(
    store: &Store,
    levels: u32,
    path: &[Address],
    value: &Value,
    counts: &mut Counts,
) -> Result<(), Refused>
    ensures { Does (spec.enter store.now levels path.now value.now counts.old) result counts.new }
{
    let met = counts.with(store, value);
    *counts = met;
    match broken(levels, path, value, met) {
        None => Ok(()),
        Some(rule) => Err(met.refused(rule)),
    }
}
