ghost use Rattle.std.specs.Prelude.{◌≡◌};
ghost use Rattle.mt_eval_steps.specs.Outcomes as outcomes;
ghost use Rattle.mt_eval_steps.specs.Outcomes.{Throws};

use mt_eval_meaning::{Exit, State};
use mt_ops::{ErrorKind, Outcome};
use mt_tree::NoMemory;
use mt_value::Value;
use std::alloc::Global;

/// The value that an operation came to. Takes no memory.
///
/// # Errors
/// `Throw`, exactly where the operation threw.
pub fn value_or_throw(outcome: Outcome) -> Result<Value, Exit>
    ensures { result ≡ outcomes.value_or_throw outcome }
{
    match outcome {
        Outcome::Value(value) => Ok(value),
        Outcome::Throw(value) => Err(Exit::Throw(value)),
    }
}

/// Makes the object of an error that is thrown, which goes last into the store. The answer is `Throw` with it, or `NoMemory`.
pub fn throw(alloc: Global, state: &mut State, error: &ErrorKind) -> Exit
    ensures { Throws error.now state.old result state.new }
{
    match mt_ops::throw(alloc, error, &mut state.store) {
        Ok(Outcome::Throw(value)) => Exit::Throw(value),
        Ok(Outcome::Value(value)) => Exit::Throw(value),
        Err(NoMemory) => Exit::NoMemory,
    }
}
