//! The head of a request in HTTP/1.1 (RFC 9112), decided as far as it decides by itself.
//!
//! [`decide_head`] looks for a whole head at the front of bytes, by the grammar of `httparse`. Of a whole head it says with
//! which status the request is refused, or which service is loaded or called, by the list `head_points` among this crate's
//! definitions. It reads no text of arguments and no body.
//!
//! The reader of requests stands on this crate.
#![tactic(auto)]

mod decision;
mod fields;
mod parts;
mod points;
mod size;
mod target;

pub use decision::{Decision, HeadStatus, decide_head};
