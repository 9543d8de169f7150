//! Texts of lines, and lines of words: the first line of a text, the words between spaces, and numbers in decimal digits.
//!
//! A line is ended by a line feed (U+000A), the last one with or without, and a carriage return in front of a line feed is
//! dropped. Each function lends a part of what it was given, takes no memory, and gives exactly what its definition says.
//! The reader of schedules stands on this crate.
#![tactic(auto)]

mod cutting;
mod line;
mod number;

pub use cutting::{after_spaces, place_of};
pub use line::{first_line, without_return};
pub use number::number_of;
