ghost use Rattle.std.specs.Prelude.{◌≡◌};
ghost use Rattle.std.specs.Str.{bytes_eq};
ghost use Rattle.mt_script_words.specs.Keywords.{keyword_of, leader_of};

use mt_tree::VarKind;

/// A word that begins a statement.
#[derive(Clone, Copy, Debug, PartialEq, Eq)]
pub enum Keyword {
    /// `var`, `let` or `const`
    Declare(VarKind),
    /// `function`
    Function,
    /// `if`
    If,
    /// `while`
    While,
    /// `for`
    For,
    /// `return`
    Return,
    /// `throw`
    Throw,
    /// `break`
    Break,
    /// `continue`
    Continue,
    /// `try`
    Try,
    /// Any other word; an expression may begin with it.
    Other,
}

/// A word that begins an expression.
#[derive(Clone, Copy, Debug, PartialEq, Eq)]
pub enum Leader {
    /// `true` or `false`
    Truth(bool),
    /// `null`
    Null,
    /// `undefined`
    Undefined,
    /// `function`
    Function,
    /// `typeof`
    Typeof,
    /// Any other word: a name or a number.
    Other,
}

/// Whether the word is this one.
pub fn is_word(known: &[u8], word: &[u8]) -> bool
    ensures { result ≡ bytes_eq known.now word.now }
{
    known == word
}

/// Which statement the word begins.
#[tactic(auto, unfolding(crate::specs::Keywords::keyword_of))]
pub fn find_keyword(word: &[u8]) -> Keyword
    ensures { result ≡ keyword_of word.now }
{
    if is_word(b"var", word) {
        Keyword::Declare(VarKind::Var)
    } else if is_word(b"let", word) {
        Keyword::Declare(VarKind::Let)
    } else if is_word(b"const", word) {
        Keyword::Declare(VarKind::Const)
    } else if is_word(b"function", word) {
        Keyword::Function
    } else if is_word(b"if", word) {
        Keyword::If
    } else if is_word(b"while", word) {
        Keyword::While
    } else if is_word(b"for", word) {
        Keyword::For
    } else if is_word(b"return", word) {
        Keyword::Return
    } else if is_word(b"throw", word) {
        Keyword::Throw
    } else if is_word(b"break", word) {
        Keyword::Break
    } else if is_word(b"continue", word) {
        Keyword::Continue
    } else if is_word(b"try", word) {
        Keyword::Try
    } else {
        Keyword::Other
    }
}

/// Which expression the word begins.
#[tactic(auto, unfolding(crate::specs::Keywords::leader_of))]
pub fn find_leader(word: &[u8]) -> Leader
    ensures { result ≡ leader_of word.now }
{
    if is_word(b"true", word) {
        Leader::Truth(true)
    } else if is_word(b"false", word) {
        Leader::Truth(false)
    } else if is_word(b"null", word) {
        Leader::Null
    } else if is_word(b"undefined", word) {
        Leader::Undefined
    } else if is_word(b"function", word) {
        Leader::Function
    } else if is_word(b"typeof", word) {
        Leader::Typeof
    } else {
        Leader::Other
    }
}
