//! Requests, written in HTTP/1.1 (RFC 9112), and the targets by which services are asked for.
//!
//! [`write_request`] and [`write_target`] append to a list of bytes exactly the text that `RequestText` and `Targets` among
//! this crate's definitions give. What stood in the list before stays in front of it. Want of memory is the only refusal; a
//! beginning of the text may then have been appended.
//!
//! The reader of requests, the server and the client stand on this crate.
#![tactic(auto)]

mod escapes;
mod laws;
mod request;
mod target;

pub use escapes::append_escaped;
pub use laws::one_text_for_each_request;
pub use request::write_request;
pub use target::write_target;
