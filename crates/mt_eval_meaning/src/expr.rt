use crate::name::Name;
use mt_tree::{Binary, Boxed, Data, Row, StepKind, Text, Unary};

/// An expression.
#[cycle(expr)]
#[derive(Drop)]
pub enum Expr {
    /// A name that is read.
    Name(Name),
    /// A number.
    Num(i64),
    /// A text.
    Text(Text),
    /// `true` or `false`
    Bool(bool),
    /// `null`
    Null,
    /// `undefined`
    Undefined,
    /// `[a, b]`
    Arr(Row<Expr>),
    /// `{k: a, l: b}`
    Obj(Row<Entry>),
    /// A new function, by the number of its code.
    Fun(usize),
    /// `!a`, `-a`, `+a` or `typeof a`
    Unary(Unary, Boxed<Expr>),
    /// `++a`, `--a`, `a++` or `a--`; the operand is a `Name` or an `Index`.
    Step(StepKind, Boxed<Expr>),
    /// `a + b` and its like
    Binary(Binary, Boxed<Expr>, Boxed<Expr>),
    /// `a && b`
    And(Boxed<Expr>, Boxed<Expr>),
    /// `a || b`
    Or(Boxed<Expr>, Boxed<Expr>),
    /// `a ? b : c`
    Cond(Boxed<Expr>, Boxed<Expr>, Boxed<Expr>),
    /// `a = b`, or with an operator `a += b` and its like; the target is a `Name` or an `Index`.
    Assign(Option<Binary>, Boxed<Expr>, Boxed<Expr>),
    /// `a[k]`
    Index(Boxed<Expr>, Boxed<Expr>),
    /// `f(a, b)`
    Call(Boxed<Expr>, Row<Expr>),
    /// A tilde, by its number, with the expressions of its dollars in text order.
    Tilde(u32, Row<Expr>),
    /// An element, by its tag, its attributes and its children in text order.
    Element(Text, Row<Attribute>, Row<Piece>),
    /// A value that was put in the place of a dollar.
    Val(Data),
}

/// A property of an object literal.
#[cycle(expr)]
#[derive(Drop)]
pub struct Entry {
    /// The key.
    pub name: Text,
    /// The property's value.
    pub value: Expr,
}

/// An attribute of an element.
#[cycle(expr)]
#[derive(Drop)]
pub struct Attribute {
    /// The attribute's name.
    pub name: Text,
    /// What gives its value.
    pub value: Piece,
}

/// What gives the value of an attribute, or a child of an element.
#[cycle(expr)]
#[derive(Drop)]
pub enum Piece {
    /// A text as it stands.
    Text(Text),
    /// An expression.
    Expr(Expr),
}
