//! The properties of values: the items and the length of arrays, the units and the length of texts, and the properties of
//! objects, read and written by a key; with them the text of an uncaught error, and the steps that operators and reads
//! cost.
//!
//! Each call answers as its definition in `specs/` says: a value, or a thrown error, which is a fresh object with the
//! properties `name` and `message`. A write changes one cell of the store, and every other stays as it was. A lawful store
//! stays lawful. Want of memory is the only other answer. The evaluator of both tiers stands on this crate.
//!
//! A cost is known before the work is done, so that a budget can refuse it.
#![tactic(auto)]

mod array;
mod cost;
mod key;
mod object;
mod property;
mod text;
mod thrown;

pub use cost::{binary_cost, property_cost, unary_cost};
pub use object::write_object;
pub use property::{get_property, set_property};
pub use thrown::error_text;
