//! The text of client code, read exactly.
//!
//! [`read_code`] gives the code whose text the bytes are, and refuses bytes that are no text of code within the limits: a space
//! more, another escape of the same character or a value whose tagged JSON stands bare in `$v(..)` is refused.
//!
//! `mt_script_tree` finds the one code that the bytes can be the text of, without recursion deeper than the limit; what it
//! finds is tested against the limits, written again by `mt_script_write`, and compared with the bytes. So all that is owed of what
//! finds the code is that it finds the code of each text that was written, and nothing that has not the form of code. The laws
//! [`code_is_found_in_its_text`] and [`what_is_found_is_code`] say so; `Readable` in `specs` says of which code, and their `proofs` go from
//! the parts of a tree to the whole: `Goodness` is what is known of each node, `Read` that each is found in its text, and `Found` with the
//! files beside it that what is found is good.
//!
//! `Reads` in `specs` says which code is read from bytes, and `CodeAt` gives it as a function of the bytes, for definitions of what
//! stands above; the law [`code_is_found_in_just_its_text`] says that they mean the same. `Walking` says which values are met on a walk
//! over a tree that is not too deep, `Fills` which data fill the dollars of a tilde of an accepted program, and `Differing` which lists
//! of data differ in one place alone. Further laws say that the code that is read from the text of a filled tilde has just the data that
//! were put in, each in its dollar's place, whatever characters they hold. The reader of pages stands on this crate.
//!
//! The law [`one_text_for_each_code`] says that no two codes have one text, whatever limits they pass, though what finds the code follows
//! no text or value beyond its limit. In `proofs`, `Shortened` puts short leaves in the place of a tree's names, texts and values, and
//! `ShortenedCode` says that code with these is found in its text; `Leaves` and `Refilled` say that a tree is made again of its own
//! leaves; `Tokens` and the files on what is spelled say that a text tells both; and `OneText` joins them.
#![tactic(auto)]

mod laws;
mod reading;
mod walk;

pub use laws::{
    code_is_found_in_its_text, code_is_found_in_just_its_text, one_text_for_each_code,
    only_values_differ, values_are_read_as_values, what_is_found_is_code,
};
pub use mt_script_words::CodeRefusal;
pub use reading::read_code;
