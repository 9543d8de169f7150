//! The text of client code, written from a tilde and the values of its dollars.
//!
//! [`write_code`] appends exactly the text that `CodeText` among the definitions of `mt_syntax` gives to the code that
//! `substitute` makes, and makes no such code itself: a value is written where its dollar stands, as a literal of its tagged
//! JSON. [`code_text`] writes code itself, by the same functions. What stood in the list before stays in front.
//!
//! The writer of pages and the reader of code stand on this crate.
#![tactic(auto)]

mod expressions;
mod functions;
mod literal;
mod signs;
mod statements;
mod values;
mod writing;

pub use writing::{code_text, write_code};
