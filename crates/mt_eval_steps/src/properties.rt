ghost use Rattle.mt_eval_meaning.specs.Runs.{Evals};
ghost use Rattle.mt_eval_meaning.specs.State as spec;
ghost use Rattle.mt_ops.specs.Errors.{settled};
ghost use Rattle.mt_ops_properties.specs.Properties.{property, written};

use crate::throwing::value_or_throw;
use mt_eval_meaning::{Exit, State};
use mt_value::Value;
use std::alloc::Global;

/// Reads the property of a value of the language by its key.
///
/// # Errors
/// `Throw` exactly where the tables of properties say so, and `NoMemory`.
#[tactic(auto, unfolding(mt_eval_meaning::specs::State::operate))]
pub fn get_property(
    alloc: Global,
    state: &mut State,
    base: &Value,
    key: &Value,
) -> Result<Value, Exit>
    ensures { Evals (spec.operate (λ store. settled (property store base.now key.now) store) state.old) result state.new }
{
    value_or_throw(mt_ops_properties::get_property(alloc, base, key, &mut state.store)?)
}

/// Writes the property of a value of the language by its key, and answers the value.
///
/// # Errors
/// `Throw` exactly where the tables of properties say so, and `NoMemory`.
#[tactic(auto, unfolding(mt_eval_meaning::specs::State::operate))]
pub fn set_property(
    alloc: Global,
    state: &mut State,
    base: &Value,
    key: &Value,
    value: &Value,
) -> Result<Value, Exit>
    ensures { Evals (spec.operate (λ store. written store base.now key.now value.now) state.old) result state.new }
{
    value_or_throw(mt_ops_properties::set_property(alloc, base, key, value, &mut state.store)?)
}
