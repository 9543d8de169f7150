//! The messages between a client and a server, as values: what a client sends, what a server takes it for, and what it
//! answers.
//!
//! Contracts see each message as a plain value. A [`Target`] holds any text; [`Target::fits`] and [`target_fits`] are the
//! test for the targets that a client may ask for, and [`Target::read`] reads one. The writers and readers of messages, and
//! the schedules that name targets, stand on this crate.
#![tactic(auto)]

mod feed;
mod reply;
mod request;
mod target;

pub use feed::{Feed, Part};
pub use reply::{Content, Reply, ReplyHead, ReplyRefusal};
pub use request::{Asked, Call, Request};
pub use target::{Target, target_fits, targets_are_ascii};
