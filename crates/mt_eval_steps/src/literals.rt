ghost use Rattle.std.specs.Prelude.{◌≡◌};
ghost use Rattle.mt_eval_meaning.specs.Expressions as forms;
ghost use Rattle.mt_eval_meaning.specs.Runs.{Evals};
ghost use Rattle.mt_eval_meaning.specs.State as spec;
ghost use Rattle.mt_ops.specs.Errors.{Answers};

use crate::throwing::throw;
use mt_eval_meaning::{Exit, State};
use mt_ops::Refusal;
use mt_ops_properties::write_object;
use mt_tree::Buffer;
use mt_value::{Property, Value};
use std::alloc::Global;

fn literal(alloc: Global, mut entries: &[Property]) -> Result<Buffer<Property>, Refusal>
    ensures { Answers (forms.literal entries.entry.now) result }
{
    let mut made = Buffer::new(alloc);
    while let [entry, rest @ ..] = entries {
        let key = Value::Text(entry.name.share()?);
        write_object(alloc, &mut made, &key, entry.value.share()?)?;
        entries = rest;
    }
    Ok(made)
}

/// The properties of an object literal, whose keys and values are given in text order: a repeated key keeps its first place, and
/// takes its last value.
///
/// # Errors
/// `Throw` exactly where a key can't name a property, and `NoMemory`.
#[tactic(auto, unfolding(mt_eval_meaning::specs::State::throw))]
pub fn literal_properties(
    alloc: Global,
    state: &mut State,
    entries: &[Property],
) -> Result<Buffer<Property>, Exit>
    ensures { Evals (spec.or_throw (forms.literal entries.now) state.old) result state.new }
{
    match literal(alloc, entries) {
        Ok(made) => Ok(made),
        Err(Refusal::Error(error)) => Err(throw(alloc, state, &error)),
        Err(Refusal::NoMemory) => Err(Exit::NoMemory),
    }
}
