//! The tagged JSON of data, in which data cross between the tiers: written, and read exactly.
//!
//! [`data_text`], [`arguments_text`] and [`json_text`] append to a list of bytes exactly the text that `DataText` among the
//! definitions of `mt_syntax` gives, in UTF-8. What stood in the list before stays in front of it. Want of memory is the
//! only refusal; a beginning of the text may then have been appended.
//!
//! [`read_data`] and [`read_arguments`] give the data whose text the bytes are, and refuse bytes that are no text of data
//! within the limits: a space more, another escape of the same character or another spelling of a number is refused. They are
//! the functions `data_at` and `arguments_at` of the definitions.
//!
//! `serde_json` reads, and the datum that its value can stand for is measured, written again, and compared with the bytes. So
//! all that is owed of what lies between is that it finds the datum of each text that was written. Bytes with more tokens than
//! data within the limits can have are refused before a value is made of them.
//!
//! The writers and readers of code, pages and messages stand on this crate.
#![tactic(auto)]

mod data;
mod datum;
mod digit;
mod extent;
mod laws;
mod limits;
mod names;
mod reading;
mod refusal;
mod rest;
mod separator;
mod size;
mod tagged;
mod text;

pub use data::{arguments_text, data_text};
pub use digit::{hexadecimal, is_digit};
pub use laws::{one_text_for_each_datum, one_text_for_each_list};
pub use limits::are_within_limits;
pub use reading::{read_arguments, read_data};
pub use refusal::DataRefusal;
pub use rest::{past_comma, skip};
pub use separator::append_separator;
pub use text::{hexadecimal_digit, json_text};
