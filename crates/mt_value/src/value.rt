ghost use Rattle.std.specs.Prelude.{◌≡◌, IfOk};

use crate::address::Address;
use mt_tree::{NoMemory, Text};

/// A builtin that stands under a name.
#[derive(Clone, Copy, Debug, PartialEq, Eq)]
pub enum Native {
    /// `Object`
    Object,
    /// `Array`
    Array,
    /// `document`, on a client alone.
    Document,
    /// `String`
    String,
    /// `Number`
    Number,
    /// `Error`
    Error,
    /// `log`, on the server alone.
    Log,
    /// `alert`, on a client alone.
    Alert,
    /// `event`, on a client alone. It stands for the name, whose value is asked of the host.
    Event,
}

/// A value of the language. What can change or has an identity stands in a cell of the store, and the value holds its
/// address.
#[derive(Drop)]
pub enum Value {
    /// `undefined`
    Undefined,
    /// `null`
    Null,
    /// `true` or `false`
    Bool(bool),
    /// A whole number, within 2^53 - 1 in size.
    Num(i64),
    /// A text of at most 1,048,576 units of UTF-16.
    Text(Text),
    /// An array, by its cell.
    Arr(Address),
    /// An object, by its cell.
    Obj(Address),
    /// A function, by its cell.
    Fun(Address),
    /// A service, by its name.
    Svc(Text),
    /// A call of a service that is still to be sent, by its cell.
    Frame(Address),
    /// An HTML tree, by its cell.
    Html(Address),
    /// Client code, by its cell.
    Code(Address),
    /// A node of the client's document, by its number.
    Node(usize),
    /// An event of the client, by its number.
    Event(usize),
    /// A builtin.
    Native(Native),
}

impl Value {
    /// An equal value, which shares the text where it has one.
    ///
    /// # Errors
    /// `NoMemory` where the count of sharers is at its last value.
    pub fn share(&self) -> Result<Value, NoMemory>
        ensures { IfOk result (λ made. made ≡ self.now) }
    {
        match self {
            Value::Undefined => Ok(Value::Undefined),
            Value::Null => Ok(Value::Null),
            Value::Bool(b) => Ok(Value::Bool(*b)),
            Value::Num(n) => Ok(Value::Num(*n)),
            Value::Text(text) => Ok(Value::Text(text.share()?)),
            Value::Arr(at) => Ok(Value::Arr(*at)),
            Value::Obj(at) => Ok(Value::Obj(*at)),
            Value::Fun(at) => Ok(Value::Fun(*at)),
            Value::Svc(name) => Ok(Value::Svc(name.share()?)),
            Value::Frame(at) => Ok(Value::Frame(*at)),
            Value::Html(at) => Ok(Value::Html(*at)),
            Value::Code(at) => Ok(Value::Code(*at)),
            Value::Node(number) => Ok(Value::Node(*number)),
            Value::Event(number) => Ok(Value::Event(*number)),
            Value::Native(native) => Ok(Value::Native(*native)),
        }
    }
}
