//! Where `return`, `break` and `continue` stand outside of what they leave. Takes no memory.

mod around;
mod expressions;
mod markup;
mod statements;

pub(crate) use around::Around;
pub(crate) use expressions::exprs as jumps_in_exprs;
pub(crate) use statements::stmts as jumps_in_stmts;
