use mt_syntax::{Expr, ForStart, Mark, MarkupChild, MarkupValue, Stmt};
use mt_tree::Text;

// What a node and those in it make.
#[derive(Drop)]
pub(crate) enum Value {
    Expr(Expr),
    Stmt(Stmt),
    Word(Mark),
    Key(Text),
    Attribute(Mark, MarkupValue),
    Child(MarkupChild),
    Decl(Mark, Option<Expr>),
    Optional(Option<Expr>),
    Start(ForStart),
}
