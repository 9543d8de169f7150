ghost use Rattle.std.specs.Prelude.{◌≡◌, List, [], IfOk};
ghost use Rattle.mt_eval_meaning.specs.Agreement.{without_functions};
ghost use Rattle.mt_eval_meaning.specs.Code.{ClientCodeStands, FileStands, TableStands};
ghost use Rattle.mt_eval_meaning.specs.States.{Numbered, keeping_whole};
ghost use Rattle.mt_eval_meaning.specs.Stores.{StateStands};
ghost use Rattle.mt_eval.specs.ByNames.{EndsByNames, StartsByNames};
ghost use Rattle.mt_eval.specs.Jobs as jobs;
ghost use Rattle.mt_eval.specs.Jobs.{Ends};
ghost use Rattle.mt_eval_meaning.specs.Entering.{Named};
ghost use Rattle.mt_eval_meaning.specs.Evaluation.{called, client_code, file};
ghost use Rattle.mt_eval_meaning.specs.Names.{Surroundings};
ghost use Rattle.mt_eval_meaning.specs.declared.state.State.{State};
ghost use Rattle.mt_eval_meaning.specs.Slots as spec;
ghost use Rattle.mt_eval_steps.specs.Outcomes as outcomes;
ghost use Rattle.mt_syntax.specs.declared.tree.Stmt.{Stmt};

use crate::levels::{run_call, run_unit};
use mt_eval_meaning::{Budget, Done, Exit, Function, Host, State, Unit};
use mt_tree::NoMemory;
use mt_value::{Globals, Store, Value};
use std::alloc::Global;
use std::mem;

/// Moves a store, global variables and a budget into a state.
fn taken(alloc: Global, store: &mut Store, globals: &mut Globals, budget: &Budget) -> State
    ensures { result ≡ jobs.state store.old globals.old budget.now.left }
{
    State {
        store: mem::replace(store, Store::new(alloc)),
        globals: mem::replace(globals, Globals::new(alloc)),
        budget: budget.left,
    }
}

/// Moves the parts of a state back.
fn put_back(state: State, store: &mut Store, globals: &mut Globals, budget: &mut Budget)
    ensures { state ≡ jobs.state store.new globals.new budget.new.left }
{
    let State {
        store: cells,
        globals: variables,
        budget: left,
    } = state;
    *store = cells;
    *globals = variables;
    budget.left = left;
}

fn done(ended: Result<Value, Exit>) -> Result<Done, NoMemory>
    ensures { IfOk result (λ done. ended ≡ outcomes.value_or_exit done) }
{
    match ended {
        Ok(value) => Ok(Done::Value(value)),
        Err(Exit::Throw(value)) => Ok(Done::Throw(value)),
        Err(Exit::Stop(stop)) => Ok(Done::Stop(stop)),
        Err(Exit::NoMemory) => Err(NoMemory),
    }
}

/// Runs the code of a tier: its entry, and then its statements. Its value is that of a `return`, else undefined. Where the code stands for
/// the file of a program, or for client code, it ends as this does by names.
///
/// # Errors
/// `NoMemory`; the store, the variables, the host and the budget are then those at some place of the evaluation.
pub fn evaluate<H: Host>(
    alloc: Global,
    functions: &[Function],
    unit: &Unit,
    store: &mut Store,
    globals: &mut Globals,
    host: &mut H,
    budget: &mut Budget,
) -> Result<Done, NoMemory>
    ensures on_slots { IfOk result (λ done. Ends (spec.unit functions.now H.meaning unit.now (jobs.state store.old globals.old budget.old.left, host.old)) done store.new globals.new host.new budget.new.left) }
    ensures file { (around : Surroundings) (table : List Numbered) → TableStands around functions.now table → (items : List Stmt) → FileStands around functions.now table unit.now items → store.old ≡ [] → IfOk result (λ done. StartsByNames around.tildes table items (file (keeping_whole around) H.meaning items (without_functions (jobs.state store.old globals.old budget.old.left, host.old))) done store.new globals.new host.new budget.new.left) }
    ensures client_code { (around : Surroundings) (table : List Numbered) → TableStands around functions.now table → (items : List Stmt) → ClientCodeStands around functions.now table unit.now items → (n : State × Named H) → StateStands around.tildes table (jobs.state store.old globals.old budget.old.left, host.old) n → IfOk result (λ done. EndsByNames around.tildes table (client_code (keeping_whole around) H.meaning items n) done store.new globals.new host.new budget.new.left) }
{
    evaluate_unit(alloc, functions, unit, store, globals, host, budget)
}

/// Begins a job with the call of a value. That call isn't counted among those in progress. Where the functions stand for syntax, it ends as
/// the call does by names.
///
/// # Errors
/// `NoMemory`; the store, the variables, the host and the budget are then those at some place of the evaluation.
pub fn call<H: Host>(
    alloc: Global,
    functions: &[Function],
    function: &Value,
    arguments: &[Value],
    store: &mut Store,
    globals: &mut Globals,
    host: &mut H,
    budget: &mut Budget,
) -> Result<Done, NoMemory>
    ensures on_slots { IfOk result (λ done. Ends (spec.called functions.now H.meaning function.now arguments.now (jobs.state store.old globals.old budget.old.left, host.old)) done store.new globals.new host.new budget.new.left) }
    ensures by_names { (around : Surroundings) (table : List Numbered) → TableStands around functions.now table → (n : State × Named H) → StateStands around.tildes table (jobs.state store.old globals.old budget.old.left, host.old) n → IfOk result (λ done. EndsByNames around.tildes table (called (keeping_whole around) H.meaning function.now arguments.now n) done store.new globals.new host.new budget.new.left) }
{
    call_value(
        alloc, functions, function, arguments, store, globals, host, budget,
    )
}

#[tactic(auto, using(crate::proofs::Endings::ended))]
fn evaluate_unit<H: Host>(
    alloc: Global,
    functions: &[Function],
    unit: &Unit,
    store: &mut Store,
    globals: &mut Globals,
    host: &mut H,
    budget: &mut Budget,
) -> Result<Done, NoMemory>
    ensures { IfOk result (λ done. Ends (spec.unit functions.now H.meaning unit.now (jobs.state store.old globals.old budget.old.left, host.old)) done store.new globals.new host.new budget.new.left) }
{
    let mut state = taken(alloc, store, globals, budget);
    let result = run_unit(alloc, functions, unit, &mut state, host);
    put_back(state, store, globals, budget);
    done(result)
}

#[tactic(auto, using(crate::proofs::Endings::ended))]
fn call_value<H: Host>(
    alloc: Global,
    functions: &[Function],
    function: &Value,
    arguments: &[Value],
    store: &mut Store,
    globals: &mut Globals,
    host: &mut H,
    budget: &mut Budget,
) -> Result<Done, NoMemory>
    ensures { IfOk result (λ done. Ends (spec.called functions.now H.meaning function.now arguments.now (jobs.state store.old globals.old budget.old.left, host.old)) done store.new globals.new host.new budget.new.left) }
{
    let mut state = taken(alloc, store, globals, budget);
    let result = run_call(alloc, functions, function, arguments, &mut state, host);
    put_back(state, store, globals, budget);
    done(result)
}
