//! Requests in HTTP/1.1 (RFC 9112), read as their bytes come.
//!
//! [`RequestReader`] is fed a connection's bytes in pieces of any size, and gives what they ask a server for, which is the function
//! `reads_request` among this crate's definitions of the services and of every list of bytes: a page, the result of a call, or a
//! refusal with the status of the first point of a list that holds. It has decided exactly from the first byte on behind which no
//! further byte matters.
//!
//! The server stands on this crate.
#![tactic(auto)]

mod asking;
mod laws;
mod reader;

pub use laws::{heads_are_found, read_for_good};
pub use reader::RequestReader;
