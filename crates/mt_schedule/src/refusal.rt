use mt_tree::NoMemory;

/// Why a line isn't read as a command.
#[derive(Clone, Copy, Debug, PartialEq, Eq)]
pub enum LineRefusal {
    /// The line spells no command, and isn't one that is skipped.
    Bad,
    /// Memory ran out. It stands for no other cause.
    NoMemory,
}

impl From<NoMemory> for LineRefusal {
    ghost use Rattle.std.specs.Prelude.{◌≡◌};
    ghost use Rattle.mt_schedule.specs.declared.refusal.LineRefusal.TheVariants.{NoMemory as Memory};

    ghost from_gives = { λ _ refusal. refusal ≡ Memory };

    fn from(_refused: NoMemory) -> LineRefusal {
        LineRefusal::NoMemory
    }
}

/// Why a text isn't read as a schedule.
#[derive(Clone, Copy, Debug, PartialEq, Eq)]
pub enum ScheduleRefusal {
    /// The number of the first line that can't be read. Lines are counted from 1.
    BadLine(u32),
    /// The number of the line that is one too many, 20,001 or in version 2 100,001, where all lines before it can be read.
    TooManyLines(u32),
    /// Memory ran out. It stands for no other cause.
    NoMemory,
}
