//! Laws of the definitions of applications and schedules, each as the contract of a function with an empty body.
ghost use Rattle.std.specs.Prelude.{◌≡◌, ℕ, List};
ghost use Rattle.mt_small.specs.declared.application.Small.{Small};
ghost use Rattle.mt_small.specs.declared.command.SmallCommand.{SmallCommand};
ghost use Rattle.mt_small.specs.Application.{IsSmall, Spells};
ghost use Rattle.mt_small.specs.Schedule.{SpellsSchedule, IsFirstBad};

/// A text spells at most one small application.
pub fn one_application()
    ensures { (text : List ℕ) (a b : Small) → IsSmall a → IsSmall b → Spells text a → Spells text b → a ≡ b }
{}

/// A text is the schedule of at most one list of commands.
pub fn one_schedule()
    ensures { (text : List ℕ) (a b : List SmallCommand) → SpellsSchedule text a → SpellsSchedule text b → a ≡ b }
{}

/// A text with a bad line is no schedule.
pub fn bad_line_refuses()
    ensures { (text : List ℕ) (number : ℕ) (commands : List SmallCommand) → IsFirstBad text number → SpellsSchedule text commands → ⊥ }
{}

/// A text has at most one first bad line.
pub fn one_first_bad_line()
    ensures { (text : List ℕ) (m n : ℕ) → IsFirstBad text m → IsFirstBad text n → m ≡ n }
{}
