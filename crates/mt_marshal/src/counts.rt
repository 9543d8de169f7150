ghost use Rattle.std.specs.Prelude.{◌≡◌, map, sum};
ghost use Rattle.mt_marshal.specs.Rules.{bytes_of, met, name_bytes};
ghost use Rattle.mt_marshal.specs.declared.refusal.Refused.TheVariants as refused;
ghost use Rattle.mt_ops_methods.specs.Costs.{counted};
ghost use Rattle.mt_syntax.specs.DataLimits.{text_bytes};

use crate::cells::properties_at;
use crate::refusal::Refused;
use crate::rule::MarshalRule;
use mt_tree::Text;
use mt_value::{Property, Store, Value};

/// What was met of a list of values. Each count stays at the last value of its type.
#[derive(Clone, Copy)]
pub(crate) struct Counts {
    /// The nodes.
    pub(crate) nodes: u64,
    /// The bytes of the texts, the names of properties and the names of services.
    pub(crate) bytes: u64,
}

impl Counts {
    /// With one node more.
    pub(crate) fn with(self, store: &Store, value: &Value) -> Counts
        ensures { result ≡ met store.now value.now self }
    {
        Counts {
            nodes: self.nodes.saturating_add(1),
            bytes: self.bytes.saturating_add(bytes_of(store, value)),
        }
    }

    /// The refusal of the node that was met last.
    pub(crate) fn refused(self, rule: MarshalRule) -> Refused
        ensures { result ≡ refused.Rule rule self.nodes self.bytes }
    {
        Refused::Rule {
            rule,
            walked: self.nodes,
            bytes: self.bytes,
        }
    }
}

fn bytes_of(store: &Store, value: &Value) -> u64
    ensures { result ≡ counted (bytes_of store.now value.now) }
{
    match value {
        Value::Text(text) => text_bytes(text),
        Value::Svc(name) => text_bytes(name),
        Value::Obj(at) => bytes_of_names(properties_at(store, *at)),
        _ => 0,
    }
}

fn text_bytes(text: &Text) -> u64
    ensures { result ≡ counted (text_bytes text.now) }
{
    text.as_bytes().len() as u64
}

fn bytes_of_names(properties: &[Property]) -> u64
    ensures { result ≡ counted (sum (map name_bytes properties.now)) }
{
    let mut bytes: u64 = 0;
    for property in properties {
        bytes = bytes.saturating_add(text_bytes(&property.name));
    }
    bytes
}
