use mt_tree::Text;
use mt_value::Value;

/// What is called, once it is evaluated and before the arguments are.
#[derive(Drop)]
pub enum Callee {
    /// A value.
    Function(Value),
    /// A method of a value, by its name.
    Method(Value, Text),
}
