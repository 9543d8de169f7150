//! The values of the language at run time, on the server and on the client: values, the store of cells that they name,
//! and the global variables of a client.
//!
//! Contracts see an [`Address`] as a number, a [`Store`] as the list of its cells, and [`Globals`] as a list of names with
//! values in the order of the first assignments. Each call states the whole list that it leaves. A store never shrinks:
//! an address that a call gave stays an address of the same cell, since there is no collector of garbage.
//!
//! `specs/Lawful.antt` says which stores, values and data a program can meet: addresses name cells of their kind, numbers
//! and texts are within their limits, names of properties are distinct and none spells a whole number. Numbers, names of
//! properties and data are as the definition of data in `mt_syntax` says, to which only the length of texts is added. The
//! operators and the evaluator stand on this crate and keep that.
#![tactic(auto)]

mod address;
mod cell;
mod globals;
mod store;
mod value;

pub use address::Address;
pub use cell::{Cell, FrameCell, FunCell, Property};
pub use globals::Globals;
pub use store::Store;
pub use value::{Native, Value};
