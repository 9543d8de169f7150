//! The walk through a tree that finds where a name is declared twice in one of the scopes below it, whatever the search in one scope.

mod bodies;
mod expressions;
mod markup;
mod statements;

pub(crate) use expressions::exprs;
pub(crate) use statements::stmts;
