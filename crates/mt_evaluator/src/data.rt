ghost use Rattle.mt_eval_meaning.specs.Expressions as forms;
ghost use Rattle.mt_eval_meaning.specs.Runs.{Evals};
ghost use Rattle.mt_eval_meaning.specs.State as spec;
ghost use Rattle.mt_syntax.specs.DataLimits.{nodes_of_data};

use mt_eval_meaning::{Exit, State};
use mt_eval_steps::{build, nodes, spend};
use mt_tree::Data;
use mt_value::Value;
use std::alloc::Global;

/// Takes one step, and one for each node of a datum. Takes no memory.
///
/// # Errors
/// The stop `Budget`, exactly where they are more than what is left; nothing is taken then.
pub(crate) fn spend_nodes(state: &mut State, datum: &Data) -> Result<(), Exit>
    ensures { Evals (spec.spend (nodes_of_data datum.now) state.old) result state.new }
{
    // The proof needs that a budget is below 2^64.
    let _left = state.budget;
    let more = nodes(datum);
    spend(state, more)
}

/// The value of a datum, with fresh cells for its arrays and objects.
///
/// # Errors
/// `NoMemory`.
#[tactic(auto, unfolding(mt_eval_meaning::specs::Expressions::build_cells))]
pub(crate) fn build_cells(alloc: Global, state: &mut State, datum: &Data) -> Result<Value, Exit>
    ensures { Evals (forms.build_cells datum.now state.old) result state.new }
{
    Ok(build(alloc, datum, &mut state.store)?)
}
