ghost use Rattle.std.specs.Prelude.{◌≡◌};

use mt_syntax::Rule;
use mt_tree::{NoMemory, Place};

/// Why a program isn't accepted.
#[derive(Clone, Copy, Debug, PartialEq, Eq)]
pub enum StageRefusal {
    /// A rule is broken. The place is the first broken one, and the rule the lowest that is broken there.
    Broken {
        /// The rule.
        rule: Rule,
        /// Where it is broken.
        place: Place,
    },
    /// Memory ran out, whether or not a rule is broken.
    NoMemory,
}

impl From<NoMemory> for StageRefusal {
    ghost use Rattle.mt_stage.specs.declared.refusal.StageRefusal.TheVariants as refusal;

    ghost from_gives = { λ _ made. made ≡ refusal.NoMemory };

    fn from(_refused: NoMemory) -> StageRefusal {
        StageRefusal::NoMemory
    }
}
