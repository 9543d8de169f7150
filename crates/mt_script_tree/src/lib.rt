//! Code found leniently in bytes, as a tree.
//!
//! [`read_statements`] gives the tree of each text of code, and for other bytes some tree or none: what it finds has to be written
//! again and compared. It follows parentheses, brackets and braces only so deep as it is told, and each chain of keys and
//! arguments no further, so neither its recursion nor the depth of what it finds grows with the bytes; it goes through them once.
//!
//! `specs` has what is found in a list of bytes (`Expressions`, `Statements`, `Lists`, `Reading`), and `proofs` the laws that this
//! is the code that the bytes are the text of, where there is one, and that whatever is found has the form of code.
#![tactic(auto)]

mod expressions;
mod functions;
mod lists;
mod made;
mod operations;
mod reading;
mod statements;

pub use reading::read_statements;
