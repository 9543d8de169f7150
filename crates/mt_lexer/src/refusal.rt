ghost use Rattle.std.specs.Prelude.{◌≡◌};

use mt_tree::Place;
use std::alloc::AllocError;

/// Why a source has no tokens. Of two refusals the first that is met counts, when the source is
/// read from its start, and of two at one token the one that stands first here.
#[derive(Clone, Copy, Debug, PartialEq, Eq)]
pub enum LexRefusal {
    /// The source isn't UTF-8. The place is directly behind its longest front that is.
    NotUtf8(Place),
    /// A character begins nothing, or can't go on what is open, with its place.
    BadCharacter(Place),
    /// A backslash in a text of code begins no escape, with its place.
    BadEscape(Place),
    /// A text, a comment, a close tag or a mode isn't closed, with the place where the innermost
    /// one was opened.
    Unclosed(Place),
    /// A number is above 9007199254740991, with the place of its first digit.
    NumberTooLarge(Place),
    /// There are more than 200,000 tokens, with the place of the first one too many.
    TooManyTokens(Place),
    /// Memory ran out.
    NoMemory,
}

impl From<AllocError> for LexRefusal {
    ghost use Rattle.mt_lexer.specs.declared.refusal.LexRefusal.TheVariants.{NoMemory};

    ghost from_gives = { λ _ e. e ≡ NoMemory };

    fn from(_refused: AllocError) -> LexRefusal {
        LexRefusal::NoMemory
    }
}
