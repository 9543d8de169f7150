//! Operators on values: arithmetic, comparison, equality, the joining of texts, and the names of types, with the errors
//! that a program can catch.
//!
//! Each call answers as its definition in `specs/` says: a value, or a thrown error, which is a fresh object with the
//! properties `name` and `message`. Numbers are whole and within 2^53 - 1 in size, so an operation whose result would be
//! another number throws. A lawful store stays lawful. Want of memory is the only other answer. The properties and methods
//! of values, and the evaluator of both tiers, stand on this crate.
#![tactic(auto)]

mod equality;
mod error;
mod number;
mod operator;
mod order;
mod outcome;
mod text;

pub use equality::same;
pub use error::{ErrorKind, Operator};
pub use operator::{binary, is_truthy, unary};
pub use outcome::{Outcome, Refusal, settle, throw};
pub use text::{join_text, plain, push_text, type_name};
