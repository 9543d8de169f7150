use mt_value::Value;

/// How a statement ends, where nothing is thrown.
#[derive(Drop)]
pub enum Completion {
    /// The next statement follows.
    Normal,
    /// The innermost loop ends.
    Break,
    /// The next turn of the innermost loop follows.
    Continue,
    /// The function ends with a value.
    Return(Value),
}
