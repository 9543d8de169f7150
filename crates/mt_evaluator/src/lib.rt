//! One level of the evaluation of resolved code: what each form of expressions does, over two functions that evaluate the parts of
//! a node.
//!
//! Each method of [`Evaluator`] does what the form's definition says (`mt_eval_meaning`, with the parts of `mt_eval_meaning`), in result, state and
//! host, or answers `Exit::NoMemory`. That the two functions do so for the parts is what each asks (`specs/Nests.antt`). So no method
//! calls itself; the recursion is closed in the crate above.
#![tactic(auto)]

mod data;
mod evaluator;
mod literals;
mod operations;
mod references;
mod sequences;

pub use evaluator::Evaluator;
pub use references::is_hosted;
