//! The nodes of a page and of the trees beside it, as a vector with links.
//!
//! [`Nodes`] keeps each node in one vector, by its number, with links to its parent, its first and last child and its neighbours
//! among the children. Contracts see the list of nested trees that it holds, the page first and then the detached ones, as
//! `specs/Trees.antt` has it, and neither the vector nor a link. So each change is a function on that list: a new detached node, a
//! tree put last below a node, a tree taken out. A change takes the same time however many nodes there are, and nothing here
//! recurses on the trees, so their depth has no limit. The DOM with its index of ids stands on this crate.
#![tactic(auto)]

mod content;
mod laws;
mod links;
mod node;
mod nodes;
mod ways;

pub use content::Content;
pub use nodes::Nodes;
