//! Lines of rows. A line is a call of a library by its name, what it is called with as JSON text, and, where a long text is
//! wanted, a count: how often the text is repeated. A list gives several arguments, anything else is the one argument.
//!
//! ```text
//! find ["a line of words", "words"]
//! lex "a<b>c"
//! lex ";" 200000
//! ```
//!
//! What a line says is safe to read whatever it holds. Programs that try libraries by rows of their standard input stand on this crate.
#![tactic(auto)]

mod line;

pub use line::{Line, add, made, quoted};
