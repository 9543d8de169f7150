//! Replies in HTTP/1.1 (RFC 9112): written, and read exactly.
//!
//! [`write_reply`] appends exactly the text that `ReplyText` among this crate's definitions gives. [`ReplyStream`] reads a
//! reply in pieces and hands the body out as it comes; [`ReplyReader`] stands on it and keeps the body. Both give the reply
//! whose text the bytes are, whatever the pieces were, and refuse the bytes where there is none: another order of the fields,
//! another letter case and a byte too many are refused.
//!
//! The server and the client stand on this crate.
#![tactic(auto)]

mod laws;
mod progress;
mod reader;
mod reading;
mod stream;
mod writer;

pub use laws::{one_text_for_each_reply, refused_for_good};
pub use reader::ReplyReader;
pub use stream::ReplyStream;
pub use writer::{status_fits, write_reply, write_reply_head};
