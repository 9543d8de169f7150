use mt_tree::NoMemory;
use std::alloc::{AllocError, AllocFailed};

/// Why bytes were not read.
#[derive(Clone, Copy, Debug, PartialEq, Eq)]
pub enum CodeRefusal {
    /// The bytes are not the text of code within the limits.
    NotCode,
    /// Memory ran out. It stands for no other cause.
    NoMemory,
}

impl From<NoMemory> for CodeRefusal {
    ghost use Rattle.std.specs.Prelude.{◌≡◌};
    ghost use Rattle.mt_script_words.specs.declared.refusal.CodeRefusal.TheVariants.{NoMemory as Memory};

    ghost from_gives = { λ _ refusal. refusal ≡ Memory };

    fn from(_refused: NoMemory) -> CodeRefusal {
        CodeRefusal::NoMemory
    }
}

impl From<AllocError> for CodeRefusal {
    ghost use Rattle.std.specs.Prelude.{◌≡◌};
    ghost use Rattle.mt_script_words.specs.declared.refusal.CodeRefusal.TheVariants.{NoMemory as Memory};

    ghost from_gives = { λ _ refusal. refusal ≡ Memory };

    fn from(_refused: AllocError) -> CodeRefusal {
        CodeRefusal::NoMemory
    }
}

impl<T: Drop> From<AllocFailed<T>> for CodeRefusal {
    ghost use Rattle.std.specs.Prelude.{◌≡◌};
    ghost use Rattle.mt_script_words.specs.declared.refusal.CodeRefusal.TheVariants.{NoMemory as Memory};

    ghost from_gives = { λ _ refusal. refusal ≡ Memory };

    fn from(_refused: AllocFailed<T>) -> CodeRefusal {
        CodeRefusal::NoMemory
    }
}
