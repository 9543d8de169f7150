//! The text of pages and fragments, written from the tree that the server keeps.
//!
//! [`write_page`] and [`write_fragment`] append exactly the text that `PageText` among the definitions of `mt_syntax` gives to the tree
//! in which each closure is the code that its tilde becomes by the closure's values (`Pages`), and make no such tree: each closure is
//! written by `write_code` where it stands. What would pass 4,194,304 bytes is refused, and nothing of it is left.
//!
//! The server and the reader of pages stand on this crate.
#![tactic(auto)]

mod closures;
mod escaping;
mod nodes;
mod pages;
mod refusal;

pub use escaping::{append_attribute, append_escaped};
pub use pages::{write_fragment, write_page};
pub use refusal::PageRefusal;
