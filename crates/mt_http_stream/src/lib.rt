//! Requests in HTTP/1.1 (RFC 9112), taken in as their bytes come.
//!
//! [`RequestStream`] is fed a connection's bytes in pieces of any size. It gathers the head, at most 65,536 bytes of it, and
//! then a body of the size that the head tells. It has decided exactly from the first byte on that `Settling` among this
//! crate's definitions names; what follows is ignored. What was decided is a refusal, or a call whose arguments are not read
//! yet.
//!
//! The reader of requests stands on this crate.
#![tactic(auto)]

mod laws;
mod progress;
mod settled;
mod stream;

pub use laws::{one_head_found, settled_for_good};
pub use settled::Settled;
pub use stream::RequestStream;
