//! The words, literals and operators of client code, read from bytes.
//!
//! A lenient reader of code stands on this crate: what it finds is written again and compared, so all that is owed of these
//! functions is that they find what was written. Each is exact in a definition of `specs`: what a text begins with (`Words`,
//! `Literals`, `Values`, `Operators`), and which statement or expression a word begins (`Keywords`). `proofs` has the laws that
//! each of them reads what `CodeText` among the definitions of `mt_syntax` writes.
#![tactic(auto)]

mod keywords;
mod literals;
mod names;
mod operators;
mod refusal;
mod rest;
mod texts;
mod values;
mod words;

pub use keywords::{Keyword, Leader, find_keyword, find_leader, is_word};
pub use literals::{string, text};
pub use names::{mark, name};
pub use operators::{Operator, read_operator};
pub use refusal::CodeRefusal;
pub use rest::first;
pub use values::{datum, number};
pub use words::{after_word, word};
