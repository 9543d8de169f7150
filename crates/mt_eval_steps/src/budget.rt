ghost use Rattle.mt_eval_meaning.specs.Runs.{Evals};
ghost use Rattle.mt_eval_meaning.specs.State as spec;

use mt_eval_meaning::{Exit, State, Stop};

/// Takes one step and that many more. Takes no memory.
///
/// # Errors
/// The stop `Budget`, exactly where they are more than what is left; nothing is taken then.
#[tactic(auto, unfolding(mt_eval_meaning::specs::State::spend))]
pub fn spend(state: &mut State, more: u64) -> Result<(), Exit>
    ensures { Evals (spec.spend more state.old) result state.new }
{
    if more >= state.budget {
        return Err(Exit::Stop(Stop::Budget));
    }
    state.budget -= more + 1;
    Ok(())
}
