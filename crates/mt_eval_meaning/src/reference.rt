use mt_tree::Text;
use mt_value::{Address, Native, Value};

/// What a name stands for where it is used.
#[derive(Clone, Copy)]
pub enum Referent {
    /// A variable.
    Variable {
        /// The address of its cell.
        address: Address,
        /// Whether it is a constant.
        constant: bool,
    },
    /// A service of that name.
    Service,
    /// A builtin.
    Builtin(Native),
    /// A global variable of a client, which may not be declared yet.
    Global,
}

/// What may be read and assigned.
#[derive(Drop)]
pub enum Reference {
    /// A name, and what it stands for.
    Name(Text, Referent),
    /// A property, by its base and its key.
    Property(Value, Value),
}
