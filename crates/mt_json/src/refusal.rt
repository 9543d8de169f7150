use mt_tree::NoMemory;
use std::alloc::{AllocError, AllocFailed};

/// Why bytes were not read.
#[derive(Clone, Copy, Debug, PartialEq, Eq)]
pub enum DataRefusal {
    /// The bytes are not the text of data within the limits.
    NotData,
    /// Memory ran out. It stands for no other cause.
    NoMemory,
}

impl From<NoMemory> for DataRefusal {
    ghost use Rattle.std.specs.Prelude.{◌≡◌};
    ghost use Rattle.mt_json.specs.declared.refusal.DataRefusal.TheVariants.{NoMemory as Memory};

    ghost from_gives = { λ _ refusal. refusal ≡ Memory };

    fn from(_refused: NoMemory) -> DataRefusal {
        DataRefusal::NoMemory
    }
}

impl From<AllocError> for DataRefusal {
    ghost use Rattle.std.specs.Prelude.{◌≡◌};
    ghost use Rattle.mt_json.specs.declared.refusal.DataRefusal.TheVariants.{NoMemory as Memory};

    ghost from_gives = { λ _ refusal. refusal ≡ Memory };

    fn from(_refused: AllocError) -> DataRefusal {
        DataRefusal::NoMemory
    }
}

impl<T: Drop> From<AllocFailed<T>> for DataRefusal {
    ghost use Rattle.std.specs.Prelude.{◌≡◌};
    ghost use Rattle.mt_json.specs.declared.refusal.DataRefusal.TheVariants.{NoMemory as Memory};

    ghost from_gives = { λ _ refusal. refusal ≡ Memory };

    fn from(_refused: AllocFailed<T>) -> DataRefusal {
        DataRefusal::NoMemory
    }
}
