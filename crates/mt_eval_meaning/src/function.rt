use crate::name::Name;
use crate::stmt::Stmt;
use mt_tree::{Row, Text};

/// A function that a body declares.
#[derive(Drop)]
pub struct Hoisted {
    /// Its name, and what it stands for in the body.
    pub name: Name,
    /// The number of its code.
    pub function: usize,
}

/// The body of a function, or the code of a tier.
#[derive(Drop)]
pub struct Body {
    /// How many slots begin as undefined: those of the `var` names.
    pub variables: usize,
    /// How many slots behind these are not declared yet: those of the functions, and of `let` and `const` at the top.
    pub undeclared: usize,
    /// The functions that are made at the entry, in text order.
    pub hoisted: Row<Hoisted>,
    /// The statements.
    pub statements: Row<Stmt>,
}

/// The code of a function. Its activation begins with the captured addresses; behind them stand its own name, where it has one inside,
/// the parameters, and the slots of the body.
#[derive(Drop)]
pub struct Function {
    /// The slots that it captures, of the activation in which it is made.
    pub captures: Row<usize>,
    /// Whether it has its own name inside.
    pub own: bool,
    /// How many parameters it has.
    pub parameters: usize,
    /// The body.
    pub body: Body,
}

/// The code of a tier: the top of the file, or a tilde with values in the place of its dollars. Its activation begins empty.
#[derive(Drop)]
pub struct Unit {
    /// The global variables that the code declares by `var`, in text order.
    pub globals: Row<Text>,
    /// The code.
    pub body: Body,
}
