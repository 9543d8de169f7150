//! The steps on the state that the evaluation of code is made of.
//!
//! Each call does what its definition in `mt_eval_meaning` says, in result and state, or answers `Exit::NoMemory`. There are those that
//! take steps of the budget, operators and properties, variables and their cells, and the calls of a host; those by which the variables of
//! resolved code are found, captured and made where a function, a block or the code of a tier is entered; and [`build`], which makes fresh
//! cells for the arrays and objects of data, with [`nodes`], the count that the limits on data speak of. They say nothing of how the code is
//! gone through: the evaluator and the marshalling of values stand on this crate.
#![tactic(auto)]

mod activation;
mod budget;
mod cells;
mod counts;
mod data_cells;
mod entry;
mod hoisting;
mod host_calls;
mod literals;
mod methods;
mod operations;
mod properties;
mod throwing;
mod variables;

pub use activation::{copied, grown, pushed, referent};
pub use budget::spend;
pub use cells::{add_cell, put_cell};
pub use counts::nodes;
pub use data_cells::build;
pub use entry::{enter_function, enter_unit};
pub use hoisting::{capture, define_all};
pub use host_calls::{
    call_native, call_service, get_hosted, hosted_method, make_element, set_hosted, stage_tilde,
};
pub use literals::literal_properties;
pub use methods::plain_method;
pub use operations::{binary, count, unary};
pub use properties::{get_property, set_property};
pub use throwing::{throw, value_or_throw};
pub use variables::{
    declare, declare_global, read_global, read_variable, write_global, write_name, write_variable,
};
