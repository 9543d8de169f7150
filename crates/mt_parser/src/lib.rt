//! The parser: from the tokens of a source to its program.
//!
//! [`parse`] gives the one program that the grammar derives from the tokens, if its tree is no deeper than 60. Tokens that are no
//! program are refused at the first one that no program goes on with, and a tree that is too deep at its first statement or expression
//! at depth 61: `specs/Parsing` says which answer is whose, and that each list of tokens has one is proved ([`answer_is_unique`]).
//!
//! The layers below do the work: `mt_parser_marks` says what tokens are to the grammar, `mt_parser_machine` reads them, and
//! `mt_parser_builder` builds the tree. [`first_too_deep`] finds the first statement or expression that stands deeper than a limit, in
//! one pass over the nodes and without recursion, so that no source is too deep for it.
//!
//! The laws say of the program that is answered, apart from any code, that it is one that the grammar derives, as `mt_syntax` says it of
//! programs alone: its trees have the grammar's form, dollars and tildes stand in code of their tier, and both are numbered in text
//! order. And it is as deep as the tree: no deeper than 60 where it is answered, and deeper where it is refused. Their `proofs` go from
//! the source to the program. `Lexed` says what the texts of tokens spell, `Derived` which trees are derived from such tokens, and
//! `Shapes` what the builder makes of them; `Gathers` is the induction for whatever is gathered from a program, by which its tiers, its
//! numbers and its depth are found. The check of a source stands on this crate.
#![tactic(auto)]

mod depth;
mod laws;
mod levels;
mod parsing;
mod place;
mod refusal;

pub use depth::first_too_deep;
pub use laws::{
    answer_is_unique, parsed_program_is_derived, parsed_program_is_not_too_deep,
    refused_program_is_too_deep,
};
pub use parsing::parse;
pub use refusal::ParseRefusal;
