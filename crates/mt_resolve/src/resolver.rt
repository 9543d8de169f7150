ghost use Rattle.mt_eval_meaning.specs.Runs.{Evals};
ghost use Rattle.mt_resolve.specs.Resolving as spec;

use mt_eval_meaning::{Exit, Function};
use mt_resolve_names::{Surroundings, sum};
use mt_tree::push;
use std::alloc::Global;

/// What stays the same while code is resolved.
#[derive(Drop)]
pub struct Resolver {
    /// Where the code is allocated.
    pub alloc: Global,
    /// What stands around the code.
    pub around: Surroundings,
    /// The number of the first new function.
    pub first: usize,
}

// Puts the function behind the others, and gives its number.
#[tactic(auto, unfolding(crate::specs::Resolving::add))]
pub(crate) fn add(
    first: usize,
    functions: &mut Vec<Function>,
    function: Function,
) -> Result<usize, Exit>
    ensures { Evals (spec.add first function functions.old.items) result functions.new.items }
{
    let number = sum(first, functions.len())?;
    push(functions, function)?;
    Ok(number)
}
