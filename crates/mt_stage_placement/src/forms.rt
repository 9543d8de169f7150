//! Where a dollar, a tilde, a service, an element, a tag or an attribute stands that may not stand there.

mod expressions;
mod markup;
mod repeats;
mod site;
mod statements;

pub(crate) use expressions::exprs as forms_in_exprs;
pub(crate) use site::{Scene, Site};
pub(crate) use statements::stmts as forms_in_stmts;
