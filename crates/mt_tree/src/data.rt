ghost use Rattle.std.specs.Prelude.{◌≡◌, IfOk};

use crate::fault::NoMemory;
use crate::row::Row;
use crate::text::Text;

/// A value that crosses from one tier to the other: a finite tree, in which no part is the same place as another.
#[cycle(data)]
#[derive(Drop)]
pub enum Data {
    /// `undefined`
    Undefined,
    /// `null`
    Null,
    /// `true` or `false`
    Bool(bool),
    /// A whole number. Those of the language lie within 2^53 - 1 in size; this type doesn't say so.
    Num(i64),
    /// A text.
    Text(Text),
    /// An array with its items in order.
    Arr(Row<Data>),
    /// An object with its entries in the order of their making. Those of the language have distinct names; this type
    /// doesn't say so.
    Obj(Row<Entry>),
    /// A service, by its name.
    Svc(Text),
}

/// A property of an object.
#[cycle(data)]
#[derive(Drop)]
pub struct Entry {
    /// The property's name.
    pub name: Text,
    /// The property's value.
    pub value: Data,
}

impl Data {
    /// An equal value, which shares the texts, items and entries. Takes no memory for them.
    ///
    /// # Errors
    /// `NoMemory` where a count of sharers is at its last value.
    pub fn share(&self) -> Result<Data, NoMemory>
        ensures { IfOk result (λ made. made ≡ self.now) }
    {
        match self {
            Data::Undefined => Ok(Data::Undefined),
            Data::Null => Ok(Data::Null),
            Data::Bool(b) => Ok(Data::Bool(*b)),
            Data::Num(n) => Ok(Data::Num(*n)),
            Data::Text(text) => Ok(Data::Text(text.share()?)),
            Data::Arr(items) => Ok(Data::Arr(items.share()?)),
            Data::Obj(entries) => Ok(Data::Obj(entries.share()?)),
            Data::Svc(name) => Ok(Data::Svc(name.share()?)),
        }
    }
}
