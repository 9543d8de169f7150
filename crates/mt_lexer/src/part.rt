//! What was begun and isn't a token yet.

use crate::character::{Quote, Sign};
use crate::mode::Opener;
use mt_tree::Span;

/// A text of code that is open.
#[derive(Clone, Copy)]
pub struct OpenText {
    pub start: u32,
    pub quote: Quote,
}

/// An escape that is open, with the backslash at which it is refused.
#[derive(Clone, Copy)]
pub struct OpenEscape {
    pub text: OpenText,
    pub backslash: u32,
}

/// What was begun. Numbers are bytes of the source; `start` is where the token begins.
#[derive(Clone, Copy)]
pub enum Part {
    /// Nothing.
    Fresh,
    Name(u32),
    /// The number 0.
    Zero(u32),
    Number(u32),
    Text(OpenText),
    /// Behind a backslash.
    Escape(OpenEscape),
    /// Behind `\u`.
    Unicode(OpenEscape),
    /// Among the four digits of a unit: how many are still to come after the next one, and the
    /// value so far.
    Unit(OpenEscape, u8, u32),
    /// Behind `\u{`.
    CodePointStart(OpenEscape),
    /// Among the digits in braces: how many may still come, and the value so far.
    CodePoint(OpenEscape, u8, u32),
    /// Behind the first half of a surrogate pair.
    HighSurrogate(OpenEscape),
    /// Behind that and a backslash.
    LowEscape(OpenEscape),
    /// Among the four digits of the second half.
    LowUnit(OpenEscape, u8, u32),
    /// One sign that more may join.
    Sign(Span, Sign),
    /// `=` or `!`, and then an `=`.
    SignEquals(Span, Span),
    LineComment,
    BlockComment(u32),
    /// In a block comment, behind a star.
    BlockStar(u32),
    /// `<` and where the tag's name begins.
    TagName(u32, u32),
    AttributeName(u32),
    Quoted(u32, Quote),
    /// The slash of a tag.
    TagSlash(u32),
    ChildText(u32),
    /// Behind a `~` or `$` among children, with its place, and the start of the text before it.
    ChildTextSign(u32, u32, Opener),
    /// Behind a `~` or `$` that begins something among children.
    ChildSign(u32, Opener),
    /// `<` among children.
    ChildLess(u32),
    /// Behind `</`.
    CloseStart(u32),
    CloseName(u32),
    /// Behind the name of a close tag and white space.
    CloseSpace(u32),
}
