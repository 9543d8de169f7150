use mt_tree::NoMemory;
use mt_value::Value;

/// Why a job is stopped. A program can't catch it.
#[derive(Clone, Copy, Debug, PartialEq, Eq)]
pub enum Stop {
    /// The steps that are left are too few.
    Budget,
    /// Too many calls of functions would be in progress.
    Depth,
    /// A value can't be marshalled, by the number of the rule that it breaks, from 1 to 6.
    Marshal(u8),
}

/// How an evaluation ends.
#[derive(Drop)]
pub enum Done {
    /// With a value.
    Value(Value),
    /// With a value that was thrown and not caught.
    Throw(Value),
    /// With a stop.
    Stop(Stop),
}

/// Why an evaluation gives no value.
#[derive(Drop)]
pub enum Exit {
    /// Memory ran out.
    NoMemory,
    /// A value was thrown.
    Throw(Value),
    /// The job is stopped.
    Stop(Stop),
}

impl From<NoMemory> for Exit {
    ghost use Rattle.std.specs.Prelude.{◌≡◌};
    ghost use Rattle.mt_eval_meaning.specs.declared.exit.Exit.TheVariants as exit;

    ghost from_gives = { λ _ made. made ≡ exit.NoMemory };

    fn from(_fault: NoMemory) -> Exit {
        Exit::NoMemory
    }
}
