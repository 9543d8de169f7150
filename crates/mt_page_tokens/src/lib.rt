//! The tokens of a page, read exactly, each by itself: an opening tag, a text between tags, a script.
//!
//! Each is read leniently; what was found is then written again, and compared with the bytes. So `specs/Reading.antt` gives the one
//! value within the limits whose text the bytes are, if there is one, and the laws say so. `specs/Limits.antt` says which trees are
//! pages and fragments within the limits.
//!
//! The reader of pages stands on this crate.
#![tactic(auto)]

mod attributes;
mod bytes;
mod laws;
mod refusal;
mod texts;
mod tokens;
mod writing;

pub use bytes::is_same;
pub use laws::{
    openings_are_found_in_just_their_text, scripts_are_found_in_just_their_text,
    words_are_found_in_just_their_text,
};
pub use refusal::ReadRefusal;
pub use tokens::{Opening, read_opening, read_script, read_words};
