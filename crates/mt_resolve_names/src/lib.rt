//! What the names of code stand for: the slots of activations, the services, the builtins and the global variables.
//!
//! A scope is a list of slots, the newest first ([`find`], [`captured_scope`]); [`Entry`] makes the scope of a block, and
//! [`enter`] that of a function's body, name by name as the definition enters it; [`Surroundings`] says what a name is that no scope
//! binds, and which slots a function captures. Each is proved to be what `mt_eval_agreement` defines (`specs/Scopes.antt`, `specs/Free.antt`).
//! Nothing is refused: memory alone can be wanting. The resolver of names stands on this crate.
#![tactic(auto)]

mod builtins;
mod entering;
mod entry;
mod scope;
mod slot;
mod surroundings;

pub use entering::{Entered, enter, own_given};
pub use entry::Entry;
pub use scope::{captured_scope, find, slots, sum};
pub use slot::Slot;
pub use surroundings::Surroundings;
