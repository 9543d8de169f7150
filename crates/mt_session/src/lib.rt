//! Plays the schedule of a small application over a wire, and writes its transcript.
//!
//! A session carries out one command at a time: a client loads a page, the server takes a request and answers it,
//! a client takes the reply. Each side knows of a message only the bytes that the wire gives, whatever these are.
//!
//! What is promised, of every wire that tells its messages: the transcript is that of the two sides for the bytes that were
//! given, and what is sent is what the transcript prints. Where the wire gives each message as it was sent, the transcript is
//! that of one machine that both tiers run on, in which nothing is written or read between them. A run that a fault or want
//! of memory breaks off has written a beginning of that transcript.
//!
//! The program's replay stands on this crate.
#![tactic(auto)]

mod exchange;
pub mod laws;
mod parties;
mod party;
mod play;
mod prepare;
mod session;
mod step;
#[cfg(test)]
mod tests;
mod transcript;

pub use exchange::StepFault;
pub use mt_small::{
    Small, SmallCommand, SmallLineRefusal, SmallRefusal, read_small, read_small_schedule,
};
pub use party::{Party, Standing};
pub use play::{Played, play_small};
pub use session::Session;
