//! Small applications: one service whose page is one paragraph. This crate reads the application and its schedule,
//! and writes and reads the messages between its clients and its server.
//!
//! Each reader is exact: it gives what the text spells, and refuses only what spells nothing.
#![tactic(auto)]

mod application;
mod application_reader;
mod command;
mod command_reader;
mod message;
pub mod message_laws;
mod name;
mod number;
mod plain;
pub mod reader_laws;
mod reading;
mod schedule_reader;
mod splitting;
mod words;
mod writing;

pub use application::Small;
pub use application_reader::{SmallRefusal, read_small};
pub use command::SmallCommand;
pub use message::{Asked, Failure, Reply};
pub use reading::{answer, read_reply, read_request};
pub use schedule_reader::{SmallLineRefusal, read_small_schedule};
pub use writing::{write_load, write_reply};
