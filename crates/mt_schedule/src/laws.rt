//! Laws of what schedules spell, each as the contract of a function with an empty body.
ghost use Rattle.std.specs.Prelude.{◌≡◌, ◌⊎◌, ℕ, List};
ghost use Rattle.mt_schedule.specs.declared.command.Command.{Command};
ghost use Rattle.mt_schedule.specs.Command.{SpellsCommand, IsSkipped};
ghost use Rattle.mt_schedule.specs.Schedule.{SpellsSchedule, IsFirstBad, HasTooMany};

/// A line spells at most one command, and none where it is skipped.
pub fn one_command()
    ensures one { (version : ℕ) (line : List ℕ) (a b : Command) → SpellsCommand version line a → SpellsCommand version line b → a ≡ b }
    ensures none { (version : ℕ) (line : List ℕ) (command : Command) → IsSkipped line → SpellsCommand version line command → ⊥ }
{}

/// A text is the schedule of at most one list of commands.
pub fn one_schedule()
    ensures { (text : List ℕ) (a b : List Command) → SpellsSchedule text a → SpellsSchedule text b → a ≡ b }
{}

/// A text with a bad line, or with a line too many, is no schedule.
pub fn bad_line_refuses()
    ensures bad { (text : List ℕ) (number : ℕ) (commands : List Command) → IsFirstBad text number → SpellsSchedule text commands → ⊥ }
    ensures many { (text : List ℕ) (number : ℕ) (commands : List Command) → HasTooMany text number → SpellsSchedule text commands → ⊥ }
{}

/// A text has at most one line at which it is refused.
pub fn one_first_bad_line()
    ensures { (text : List ℕ) (m n : ℕ) → IsFirstBad text m ⊎ HasTooMany text m → IsFirstBad text n ⊎ HasTooMany text n → m ≡ n }
{}
