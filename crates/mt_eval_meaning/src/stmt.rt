use crate::expr::Expr;
use crate::name::Name;
use mt_tree::{Boxed, Row, VarKind};

/// One name of a declaration, and what it begins with.
#[derive(Drop)]
pub struct Decl {
    /// The name that is declared.
    pub name: Name,
    /// The expression behind `=`.
    pub value: Option<Expr>,
}

/// What stands first between the parentheses of a `for`.
#[derive(Drop)]
pub enum ForStart {
    /// Nothing.
    Absent,
    /// `var a = b, c`
    Var(Row<Decl>),
    /// An expression.
    Expr(Expr),
}

/// A statement.
#[derive(Drop)]
pub enum Stmt {
    /// `a;`
    Expr(Expr),
    /// `var a = b, c;` and so with `let` and `const`
    Var(VarKind, Row<Decl>),
    /// `if (a) { .. } else { .. }`
    If(Expr, Boxed<Stmt>, Option<Boxed<Stmt>>),
    /// `while (a) { .. }`
    While(Expr, Boxed<Stmt>),
    /// `for (a; b; c) { .. }`
    For(ForStart, Option<Expr>, Option<Expr>, Boxed<Stmt>),
    /// `return a;`
    Return(Option<Expr>),
    /// `break;`
    Break,
    /// `continue;`
    Continue,
    /// `throw a;`
    Throw(Expr),
    /// `try { .. } catch (x) { .. }`; what was thrown is in a new slot behind the activation's.
    Try(Boxed<Stmt>, Boxed<Stmt>),
    /// `{ .. }`, with the number of its `let` and `const` names, whose slots stand behind the activation's.
    Block(usize, Row<Stmt>),
    /// `;`, and a declaration of a function or a service, which are made at the entry of what holds them.
    Empty,
}
