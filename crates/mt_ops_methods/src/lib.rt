//! The methods of texts and arrays: `slice` and `indexOf` of both, and `push`, `pop` and `join` of arrays, with what a call
//! of each costs.
//!
//! [`method`] answers as its definition in `specs/` says: a value, or a thrown error, which is a fresh object with the
//! properties `name` and `message`. Places in a text count units of UTF-16. `push` and `pop` change the cell of their array
//! and `slice` of an array adds one; else the store stays as it was, but for the object of an error. A store that is lawful
//! stays lawful. Want of memory is the only other answer. [`method_cost`] counts what the call works through without doing
//! it, so that a budget can be taken first. The evaluator of both tiers stands on this crate.
#![tactic(auto)]

mod argument;
mod array;
mod call;
mod change;
mod cost;
mod joining;
mod name;
mod text;

pub use call::method;
pub use cost::method_cost;
