//! The machine that reads the tokens of a program.
//!
//! It reads each token once, and keeps what is open on a stack of levels. What it finishes it
//! writes as nodes, each behind those in it. [`read`] gives the nodes of the one tree that the
//! grammar derives from the tokens, or the number of the first token that no program goes on with:
//! these are the laws of the grammar's own machine, which this one follows step by step. No
//! function calls itself, so no source is too deep for it.
//!
//! The parser stands on this crate.
#![tactic(auto)]

mod element_word;
mod expression;
mod feed;
mod finished;
mod first;
mod focus;
mod function_word;
mod laws;
mod level;
mod machine;
mod object_word;
mod operand;
mod output;
mod precedence;
mod reading;
mod refusal;
mod stack;
mod statement;
mod statement_word;
mod tag;
mod try_word;
mod word;

pub use laws::refused_is_offending;
pub use reading::read;
pub use refusal::ReadRefusal;
