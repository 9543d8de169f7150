use crate::tree::{Expr, Stmt};
use mt_tree::Row;

/// A whole source.
#[derive(Drop)]
pub struct Program {
    /// The statements and declarations at the top of the file.
    pub items: Row<Stmt>,
    /// The tildes of the whole source in text order, by the places of their `~{`.
    pub tildes: Row<Tilde>,
}

/// Client code as it is written.
#[derive(Drop)]
pub struct Tilde {
    /// Its number in the program's text order, from 0.
    pub id: u32,
    /// The statements between its braces, with a `Dollar` for each `${ .. }`.
    pub body: Row<Stmt>,
    /// The expressions of its dollars, in text order. They are server code.
    pub dollars: Row<Expr>,
}

/// Client code with values in the place of its dollars, which stands nowhere in a source: every place in it is 0:0.
#[derive(Drop)]
pub struct Code {
    /// The statements.
    pub body: Row<Stmt>,
}
