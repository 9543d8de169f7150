use crate::mark::Mark;
use mt_grammar::Terminal;
use mt_tree::Kind;

/// A token with its place, and what it is to the grammar.
#[derive(Clone, Copy)]
pub struct Token<'a> {
    /// What the lexer found.
    pub kind: Kind,
    /// The terminal of the grammar that it is.
    pub terminal: Terminal,
    /// Its text and its place.
    pub mark: Mark<'a>,
}
