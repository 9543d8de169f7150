use crate::address::Address;
use crate::value::Value;
use mt_tree::{Buffer, Closure, Data, Html, Row, Text};

/// A property of an object.
#[derive(Drop)]
pub struct Property {
    /// The name.
    pub name: Text,
    /// The value.
    pub value: Value,
}

/// A function with the variables that it captures.
#[derive(Drop)]
pub struct FunCell {
    /// The number of the function's code among the units of the program.
    pub function: usize,
    /// The cells of the names that are free in the function, in the order that its code gives.
    pub captured: Row<Address>,
}

/// A call of a service that is still to be sent.
#[derive(Drop)]
pub struct FrameCell {
    /// The service's name.
    pub service: Text,
    /// The arguments.
    pub arguments: Row<Data>,
}

/// A place of the store.
#[derive(Drop)]
pub enum Cell {
    /// A variable, `None` before its declaration is reached.
    Variable(Option<Value>),
    /// The items of an array, in order.
    Arr(Buffer<Value>),
    /// The properties of an object, in the order of their making.
    Obj(Buffer<Property>),
    /// A function.
    Fun(FunCell),
    /// A call of a service.
    Frame(FrameCell),
    /// An HTML tree, whose client code is still a pair of a tilde and its values.
    Html(Html<Closure>),
    /// Client code.
    Code(Closure),
}
