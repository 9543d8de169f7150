//! The lexer: the tokens of an application's source text, or the first place at which it has no
//! spelling.
//!
//! How a text is spelled is a relation of its characters to its tokens, with one case for each
//! thing that code, a tag or the children of an element may hold. [`lex`] gives the tokens of that
//! relation or its first refusal, each text has exactly one of the two, and nothing else is
//! answered but want of memory. The texts of tokens are slices of the source, and tokens stand in
//! the order of the source.
//!
//! Which characters begin and continue a name is Unicode's identifier property. The parser stands
//! on this crate.
#![tactic(auto)]

mod character;
mod children;
mod code;
mod escape;
mod lexer;
mod mode;
mod part;
mod reading;
mod refusal;
mod sign;
mod step;
mod tag;
mod text;
mod token;
mod word;

pub use escape::{hex_more, is_character, is_hex, is_high, is_low, is_simple_escape};
pub use reading::lex;
pub use refusal::LexRefusal;
pub use token::{Token, Tokens};
