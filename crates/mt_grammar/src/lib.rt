//! The grammar of application sources, and the laws of the machine that reads it.
//!
//! A derivation relates a list of tokens to the one tree that it spells, with a case for each rule
//! of the grammar (`specs/Grammar`). It looks at the kinds and texts of tokens alone. Beside it
//! stands a machine that reads each token once and keeps what is open on a stack (`specs/Machine`):
//! it gives the nodes of the tree, each behind those in it (`specs/Nodes`).
//!
//! The functions of this crate are laws, whose contracts state them and whose bodies are empty. The
//! machine reads exactly what has a derivation, and gives the nodes of its tree; a list of tokens
//! has at most one tree, which is built again from its nodes; the machine refuses a token exactly
//! where no program begins with the tokens up to it; and one pass over the nodes finds the first
//! statement or expression that stands too deep. The crate stands on the kinds of tokens and
//! the operators of `mt_tree`. The parser does what the machine does.
#![tactic(auto)]

mod laws;
mod terminal;

pub use laws::{
    derived_is_read, program_is_built, read_is_derived, refused_begins_no_program,
    samples_are_judged, scan_finds_too_deep, tree_is_unique, unrefused_begins_some_program,
};
pub use terminal::{Constant, Declaration, Heading, Infix, Jump, StepSign, Terminal};
