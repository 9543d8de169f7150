//! From the text of an application to its checked program, or to the first refusal.
//!
//! [`read_source`] joins the lexer, the parser and the check of the stage rules. `specs/Sources` says which texts are accepted, and how
//! others are refused; that none is both is proved in `proofs/Sources`.
//!
//! The laws say that no text of the program is longer than its source ([`texts_are_no_longer_than_source`]). So what is parsed of a source
//! of at most 1,048,576 bytes is what the check of the stage rules asks for ([`parsed_is_within_limits`]): a program that the grammar
//! derives, no deeper than 60, with short texts. For that, `Tokens` in `proofs` bounds the texts of tokens, `Derived` those of the spelled
//! tree by induction over its derivation, and `Built` those of the program by induction over the spelled tree. The top call stands on this
//! crate.
#![tactic(auto)]

mod laws;
mod refusal;
mod source;

pub use laws::{parsed_is_within_limits, texts_are_no_longer_than_source};
pub use refusal::SourceRefusal;
pub use source::{check_source, read_source};
