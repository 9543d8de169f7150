//! Schedules: the recorded order of loads, events, serves, deliveries and losses that a run plays, read line by line.
//!
//! [`read_schedule`] gives exactly the commands that the lines of a text spell, or the number of the first line that spells
//! none; [`read_command`] reads one line. A schedule whose first line is `schedule 2` may be larger. [`write_command`] writes a
//! command as a transcript shows it. What a text spells is a relation between its lines and the commands; the laws say that it
//! determines both. Sessions and the top call stand on this crate.
#![tactic(auto)]

mod arguments;
mod command;
mod echo;
mod field_text;
mod keyword;
mod laws;
mod line_reader;
mod node;
mod refusal;
mod schedule_reader;
mod utf8;
mod version;

pub use command::{Command, Schedule};
pub use echo::write_command;
pub use laws::{bad_line_refuses, one_command, one_first_bad_line, one_schedule};
pub use line_reader::read_command;
pub use refusal::{LineRefusal, ScheduleRefusal};
pub use schedule_reader::read_schedule;
