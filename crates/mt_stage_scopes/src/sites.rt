//! The walk through a tree that lists its sites, each with the scopes around it.

mod expressions;
mod markup;
mod scopes;
mod statements;

pub(crate) use expressions::expr;
pub(crate) use scopes::block_scope;
pub(crate) use statements::stmts;
