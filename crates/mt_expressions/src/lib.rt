//! The evaluation of an expression of resolved code: the choice of its form, and calls, over an `Evaluator` of the level below.
//!
//! [`Expressions::node`] does what the definition of `mt_eval_meaning` says of an expression, in result, state and host, or answers
//! `Exit::NoMemory`. A call of a function goes on with one call less, at the whole depth of code, and stops where no call is
//! left.
#![tactic(auto)]

mod bodies;
mod calls;
mod expressions;
mod node;

pub use expressions::Expressions;
