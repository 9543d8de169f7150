//! What each part of a syntax tree uses and declares. `tildes` are the names of the tildes, by their numbers.

mod expressions;
mod markup;
mod statements;

pub(crate) use expressions::{exprs, function};
