ghost use Rattle.std.specs.Prelude.{◌≡◌};

use std::alloc::AllocError;

/// Why tokens were not read.
#[derive(Clone, Copy, Debug, PartialEq, Eq)]
pub enum ReadRefusal {
    /// The token of this number, from 0, can't follow those before it. The number of all tokens
    /// says that the program can't end there.
    At(usize),
    /// Memory ran out.
    NoMemory,
}

impl From<AllocError> for ReadRefusal {
    ghost use Rattle.mt_parser_machine.specs.declared.refusal.ReadRefusal.TheVariants.{NoMemory};

    ghost from_gives = { λ _ e. e ≡ NoMemory };

    fn from(_refused: AllocError) -> ReadRefusal {
        ReadRefusal::NoMemory
    }
}
