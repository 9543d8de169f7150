//! Requests that a client sends are read by a server as they were meant.
//!
//! Laws about definitions alone. The text of each request is read as `understood` among this crate's definitions says: a load by
//! its target, a call by its service and arguments. A head of the grammar of `httparse` is shown for each text. What a text has
//! decided before its arguments are read is said by `load_by` and `call_by`.
#![tactic(auto)]

mod laws;

pub use laws::{
    frames_call_services, paths_name_services, targets_carry_arguments, written_calls_are_decided,
    written_loads_are_decided, written_requests_are_understood,
};
