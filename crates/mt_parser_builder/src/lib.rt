//! From the nodes of a spelled tree to the program that it stands for.
//!
//! `specs/Program` says which program a spelled tree is: each text is read, `a.k` is the index of a
//! text, an attribute without a value has the empty text, and the tildes and dollars are numbered in
//! text order as they are found (`specs/Found`). [`build`] makes it from the tree's nodes, each behind
//! those in it. A loop joins the nodes to trees, whatever their depth, and then one function goes down
//! the trees from left to right: what a node makes of the values of those in it is the same for all
//! depths and is said in `specs/Making`. [`nodes_are_few`] bounds the nodes by the tokens.
//!
//! The parser stands on this crate, once it has seen that the tree is not too deep.
#![tactic(auto)]

mod building;
mod fault;
mod found;
mod growth;
mod kinds;
mod laws;
mod parse_tree;
mod part;
mod parts;
mod reading;
mod rows;
mod tier;
mod value;
mod values;

pub use building::build;
pub use laws::nodes_are_few;
pub use reading::inside;
pub use tier::Tier;
