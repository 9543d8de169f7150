ghost use Rattle.mt_eval_meaning.specs.Calls as calls;
ghost use Rattle.mt_eval_meaning.specs.Runs.{Evals};
ghost use Rattle.mt_eval_meaning.specs.State as spec;
ghost use Rattle.mt_ops_methods.specs.Methods as methods;

use crate::budget::spend;
use crate::throwing::value_or_throw;
use mt_eval_meaning::{Exit, State};
use mt_ops_methods::{method, method_cost};
use mt_tree::Text;
use mt_value::Value;
use std::alloc::Global;

#[tactic(auto, unfolding(mt_eval_meaning::specs::State::operate))]
fn call_method(
    alloc: Global,
    state: &mut State,
    base: &Value,
    key: &Text,
    arguments: &[Value],
) -> Result<Value, Exit>
    ensures { Evals (spec.operate (methods.method base.now key.now arguments.now) state.old) result state.new }
{
    value_or_throw(method(alloc, base, key, arguments, &mut state.store)?)
}

/// Calls a method of a value of the language by its name, once the steps of the call are taken.
///
/// # Errors
/// `Throw` exactly where the tables of methods say so, the stop `Budget` where the steps are more than what is left, and `NoMemory`.
#[tactic(auto, unfolding(mt_eval_meaning::specs::Calls::plain_method))]
pub fn plain_method(
    alloc: Global,
    state: &mut State,
    base: &Value,
    key: &Text,
    arguments: &[Value],
) -> Result<Value, Exit>
    ensures { Evals (calls.plain_method base.now key.now arguments.now state.old) result state.new }
{
    let cost = method_cost(base, key, arguments, &state.store);
    spend(state, cost)?;
    call_method(alloc, state, base, key, arguments)
}
