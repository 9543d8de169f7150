//! The evaluation of a statement of resolved code, over an `Evaluator` of the level below.
//!
//! [`Statements::node`] does what the definition of `mt_eval_meaning` says of a statement, in result, state and host, or answers
//! `Exit::NoMemory`. A loop goes on while its test is true, and its budget falls with each turn.
#![tactic(auto)]

mod blocks;
mod declarations;
mod loops;
mod node;
mod statements;

pub use statements::Statements;
