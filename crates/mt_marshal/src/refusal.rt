use crate::rule::MarshalRule;
use mt_tree::NoMemory;
use std::alloc::AllocFailed;

/// Why a list of values has no data.
#[derive(Clone, Copy, Debug, PartialEq, Eq)]
pub enum Refused {
    /// A node breaks a rule, and none before it breaks any.
    Rule {
        /// The lowest rule that the node breaks.
        rule: MarshalRule,
        /// The number of nodes that were met, this one with them.
        walked: u64,
        /// The bytes of the texts, the names of properties and the names of services that were met, those of this node with them.
        bytes: u64,
    },
    /// Memory ran out. It stands for no other cause.
    NoMemory,
}

impl From<NoMemory> for Refused {
    ghost use Rattle.std.specs.Prelude.{◌≡◌};
    ghost use Rattle.mt_marshal.specs.declared.refusal.Refused.TheVariants.{NoMemory as Memory};

    ghost from_gives = { λ _ refused. refused ≡ Memory };

    fn from(_refused: NoMemory) -> Refused {
        Refused::NoMemory
    }
}

impl<T: Drop> From<AllocFailed<T>> for Refused {
    ghost use Rattle.std.specs.Prelude.{◌≡◌};
    ghost use Rattle.mt_marshal.specs.declared.refusal.Refused.TheVariants.{NoMemory as Memory};

    ghost from_gives = { λ _ refused. refused ≡ Memory };

    fn from(_refused: AllocFailed<T>) -> Refused {
        Refused::NoMemory
    }
}
