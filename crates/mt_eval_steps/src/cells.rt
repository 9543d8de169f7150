ghost use Rattle.std.specs.Prelude.{◌≡◌, ◌<◌, length, slice_set};
ghost use Rattle.mt_eval_meaning.specs.Runs.{Evals};
ghost use Rattle.mt_eval_meaning.specs.State as spec;

use mt_eval_meaning::{Exit, State};
use mt_value::{Address, Cell, Store};

/// Puts a cell behind all others and gives its address.
///
/// # Errors
/// `NoMemory`.
#[tactic(auto, unfolding(mt_eval_meaning::specs::State::add_cell))]
pub fn add_cell(state: &mut State, cell: Cell) -> Result<Address, Exit>
    ensures { Evals (spec.add_cell cell state.old) result state.new }
{
    Ok(state.store.add(cell)?)
}

fn replace(store: &mut Store, at: Address, cell: Cell)
    requires { at < length store.old }
    ensures { store.new ≡ slice_set store.old at cell }
{
    let _old = store.exchange(at, cell);
}

/// Puts a cell in the place of another. Where the address isn't in the store nothing changes. Takes no memory.
#[tactic(auto, unfolding(mt_eval_meaning::specs::State::put_cell), using(crate::proofs::Puts::put_nowhere))]
pub fn put_cell(state: &mut State, at: Address, cell: Cell) -> Result<(), Exit>
    ensures { Evals (spec.put_cell at cell state.old) result state.new }
{
    match state.store.get(at) {
        Some(_) => {
            replace(&mut state.store, at, cell);
            Ok(())
        }
        None => Ok(()),
    }
}
