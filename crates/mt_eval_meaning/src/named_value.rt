use mt_tree::Text;
use mt_value::Value;

/// A value with a name, as an attribute of an element has it.
#[derive(Drop)]
pub struct NamedValue {
    /// The name.
    pub name: Text,
    /// The value.
    pub value: Value,
}
