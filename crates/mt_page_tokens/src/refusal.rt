use mt_tree::NoMemory;
use std::alloc::{AllocError, AllocFailed};

/// Why bytes were not read.
#[derive(Clone, Copy, Debug, PartialEq, Eq)]
pub enum ReadRefusal {
    /// The bytes are not the text of a page, or of a fragment, within the limits.
    NotPage,
    /// Memory ran out. It stands for no other cause.
    NoMemory,
}

impl From<NoMemory> for ReadRefusal {
    ghost use Rattle.std.specs.Prelude.{◌≡◌};
    ghost use Rattle.mt_page_tokens.specs.declared.refusal.ReadRefusal.TheVariants.{NoMemory as Memory};

    ghost from_gives = { λ _ refusal. refusal ≡ Memory };

    fn from(_refused: NoMemory) -> ReadRefusal {
        ReadRefusal::NoMemory
    }
}

impl From<AllocError> for ReadRefusal {
    ghost use Rattle.std.specs.Prelude.{◌≡◌};
    ghost use Rattle.mt_page_tokens.specs.declared.refusal.ReadRefusal.TheVariants.{NoMemory as Memory};

    ghost from_gives = { λ _ refusal. refusal ≡ Memory };

    fn from(_refused: AllocError) -> ReadRefusal {
        ReadRefusal::NoMemory
    }
}

impl<T: Drop> From<AllocFailed<T>> for ReadRefusal {
    ghost use Rattle.std.specs.Prelude.{◌≡◌};
    ghost use Rattle.mt_page_tokens.specs.declared.refusal.ReadRefusal.TheVariants.{NoMemory as Memory};

    ghost from_gives = { λ _ refusal. refusal ≡ Memory };

    fn from(_refused: AllocFailed<T>) -> ReadRefusal {
        ReadRefusal::NoMemory
    }
}
