ghost use Rattle.std.specs.Prelude.{◌≡◌};

use mt_tree::{NoMemory, Place};
use std::alloc::AllocError;

/// Why tokens have no program.
#[derive(Clone, Copy, Debug, PartialEq, Eq)]
pub enum ParseRefusal {
    /// They are no program, with the place of the first token that no program can go on with, or of
    /// the end of the source where every token can stand.
    Syntax(Place),
    /// They are a program whose tree is deeper than 60, with the place of its first node at depth 61.
    TooDeep(Place),
    /// Memory ran out.
    NoMemory,
}

impl From<NoMemory> for ParseRefusal {
    ghost use Rattle.mt_parser.specs.declared.refusal.ParseRefusal.TheVariants as refusal;

    ghost from_gives = { λ _ made. made ≡ refusal.NoMemory };

    fn from(_refused: NoMemory) -> ParseRefusal {
        ParseRefusal::NoMemory
    }
}

impl From<AllocError> for ParseRefusal {
    ghost use Rattle.mt_parser.specs.declared.refusal.ParseRefusal.TheVariants as refusal;

    ghost from_gives = { λ _ made. made ≡ refusal.NoMemory };

    fn from(_refused: AllocError) -> ParseRefusal {
        ParseRefusal::NoMemory
    }
}
