//! Pages and fragments, read as they come.
//!
//! A [`PageReader`] is fed the bytes in pieces of any size. It keeps the tree so far and the bytes behind the last whole token, and no
//! copy of the rest. It gives the page, or the fragment, whose text the bytes are, whatever the pieces were, and refuses the bytes where
//! there is none. `specs/Machine.antt` says what one byte more makes of the reader, `specs/Held.antt` where tokens end, and
//! `specs/Fed.antt` what the clauses of the public calls speak of. The laws on texts are the contracts of functions without a body.
//!
//! The client stands on this crate.
#![tactic(auto)]

mod children;
mod laws;
mod machine;
mod reader;
mod stack;
mod tree;

pub use laws::{no_page_begins_another, one_page_each};
pub use reader::PageReader;
