//! The tokens of a source as the grammar speaks of them, what their texts stand for, and the nodes of a tree.
//!
//! A `Mark` is a text of the source with its place; a `Token` is a mark with the terminal of the grammar that it is, which
//! [`terminal_of`] says. [`tokens_of`] makes them of the lexer's tokens in one pass over the source, and [`end_place`] gives the place
//! behind the last. What a text stands for is said by [`name`], [`number`], [`text`], [`quoted`] and [`child_text`], each exact in a
//! definition on the list of its bytes, and no longer in units of UTF-16 than the text in bytes. Nothing here refuses a source: want
//! of memory is the only error.
//!
//! A [`Node`] stands behind the nodes that it holds: so the nodes of a tree stand in the order in which they are finished.
//!
//! The machine that reads programs writes nodes, and the builder makes the tree of them; both stand on this crate.
#![tactic(auto)]

mod character;
mod escape;
mod literal;
mod mark;
mod node;
mod place;
mod reference;
mod spelling;
mod table;
mod token;
mod tokens;

pub use literal::{child_text, name, number, quoted, text};
pub use mark::Mark;
pub use node::Node;
pub use place::end_place;
pub use table::terminal_of;
pub use token::Token;
pub use tokens::tokens_of;
