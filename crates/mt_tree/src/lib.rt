//! The values that every layer of the compiler, the server and the client speaks of: texts, lists, places in a source,
//! data that cross between the tiers, HTML trees, the tables of tags and attributes, the reserved words and the names of builtins,
//! the kinds of tokens, the operators, and all limits.
//!
//! Contracts see each of them as a plain value without pointers: a [`Text`] is the list of its characters, a [`Row`] and a
//! [`Buffer`] are lists of items, a [`Boxed`] is what it holds, and [`Data`] and [`Html`] are finite trees. So two values
//! with the same contents are the same value, whether or not they share memory. `Text` and `Row` never change and are
//! shared by counting; nothing here is shared between threads.
//!
//! The places in a text are those of the language, which counts units of UTF-16: a character up to U+FFFF is one unit, and each
//! above it a pair of two. A place inside such a pair is no place between characters, so nothing can be cut there ([`cut`], [`find`]).
//! [`append`], [`append_number`] and [`append_count`] are what the writers of all texts are made of.
//!
//! Each call that takes memory answers [`NoMemory`] where there is none left, and has no other refusal. A call whose
//! result is no `Result` takes no memory. Syntax trees, the store of values, pages and messages stand on this crate.
#![tactic(auto)]

mod appending;
mod boxed;
mod buffer;
pub mod builtin;
mod closure;
mod data;
mod event;
mod fault;
mod first_place;
mod html;
mod kind;
mod laws;
mod limits;
mod list;
mod number;
mod operators;
mod part;
mod place;
mod row;
mod tables;
mod text;
mod units;
mod words;

pub use appending::{append, append_count, append_number};
pub use boxed::Boxed;
pub use buffer::Buffer;
pub use closure::Closure;
pub use data::{Data, Entry};
pub use event::{EventKind, NodeName};
pub use fault::NoMemory;
pub use first_place::find;
pub use html::{Attribute, AttributeValue, Element, Html};
pub use kind::Kind;
pub use laws::{cut_is_between, find_is_first};
pub use limits::{
    BODY_LIMIT, CALL_LIMIT, CLIENT_LIMIT, DATA_BYTE_LIMIT, DATA_DEPTH_LIMIT, DATA_NODE_LIMIT,
    DEPTH_LIMIT, ERROR_LIMIT, FIELD_LIMIT, HEAD_LIMIT, LINE_LIMIT, NESTING_LIMIT, NUMBER_LIMIT,
    SOURCE_LIMIT, STEP_LIMIT, TARGET_LIMIT, TEXT_LIMIT, TOKEN_LIMIT,
};
pub use list::push;
pub use number::decimal_units;
pub use operators::{Binary, StepKind, Unary, VarKind};
pub use part::cut;
pub use place::{Place, Span};
pub use row::Row;
pub use tables::{attribute_fits, handler_known, tag_known, tag_void};
pub use text::Text;
pub use words::{word_constant, word_reserved};
