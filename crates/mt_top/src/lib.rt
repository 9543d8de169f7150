//! The top call: reads the words, the application and the schedule, checks, starts or plays it, and writes the output.
//!
//! `run` promises, for each status that it may end with, what this says of the words, the files and the output, and that it
//! ends with the status that they ask for, faults of the outside and want of memory aside. Its clause on a replay that ends
//! well is the headline: over a wire that gives each message as it was sent, the transcript is that of a machine in which
//! client and server hand each other their messages as they were meant.
//!
//! The program stands on this crate.
#![tactic(auto)]

mod checking;
mod command;
mod lines;
mod output;
mod play;
mod refusing;
mod replaying;
mod starting;
mod status;
mod texts;
mod words;

pub use command::run;
pub use status::Status;
