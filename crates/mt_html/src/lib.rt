//! HTML elements in normal form.
//!
//! [`element`] makes an element of a tag, attributes and children: texts that stand beside each other are joined, and empty ones left
//! out. It refuses what would nest to depth 61, a joined text of more than 1,048,576 units of UTF-16, and U+0000. `specs/Normal.antt` says
//! what the normal form is, `specs/Nesting.antt` how deep a tree nests, and `specs/Refusals.antt` what is refused. The laws on the normal
//! form are the contracts of functions without a body. Pages and the server's host stand on this crate.
#![tactic(auto)]

mod joining;
mod laws;
mod making;
mod nesting;
mod nul;
mod refusal;
mod size;

pub use laws::{joined_children_are_normal, normal_children_stay};
pub use making::element;
pub use nul::has_nul;
pub use refusal::HtmlRefusal;
