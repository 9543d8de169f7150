//! The jobs of a tier: its code is evaluated, or a value is called, with what that keeps.
//!
//! [`evaluate`] and [`call`] are those of `mt_eval` and end as these do. Beside it each promises what `mt_eval_keeps` proves: from a lawful
//! state they leave a lawful one, with a lawful value; each cell that was there is still there and of its kind; each function, frame, HTML
//! and code is as it was; and what passed the host's test of its own passes it still. The server and the client stand on this crate.
#![tactic(auto)]

ghost use Rattle.std.specs.Prelude.{◌≡◌, ℕ, List, [], All, IfOk};
ghost use Rattle.mt_eval_meaning.specs.Agreement.{without_functions};
ghost use Rattle.mt_eval_meaning.specs.Code.{ClientCodeStands, FileStands, TableStands};
ghost use Rattle.mt_eval_meaning.specs.States.{Numbered, keeping_whole};
ghost use Rattle.mt_eval_meaning.specs.Stores.{StateStands};
ghost use Rattle.mt_eval.specs.ByNames.{EndsByNames, StartsByNames};
ghost use Rattle.mt_eval.specs.Jobs as jobs;
ghost use Rattle.mt_eval.specs.Jobs.{Ends};
ghost use Rattle.mt_eval_jobs.specs.Kept.{EndsKept};
ghost use Rattle.mt_eval_keeps.specs.Kept.{Fit, IsFit, IsLawful, Tests, UnitFits};
ghost use Rattle.mt_eval_meaning.specs.Entering.{Named};
ghost use Rattle.mt_eval_meaning.specs.Evaluation.{called, client_code, file};
ghost use Rattle.mt_eval_meaning.specs.Names.{Surroundings};
ghost use Rattle.mt_eval_meaning.specs.declared.state.State.{State};
ghost use Rattle.mt_eval_meaning.specs.Slots as spec;
ghost use Rattle.mt_syntax.specs.declared.tree.Stmt.{Stmt};

use mt_eval_meaning::{Budget, Done, Function, Host, Unit};
use mt_tree::NoMemory;
use mt_value::{Globals, Store, Value};
use std::alloc::Global;

/// Runs the code of a tier: its entry, and then its statements. Its value is that of a `return`, else undefined. Where the code stands for
/// the file of a program, or for client code, it ends as this does by names. Where the code fits a lawful state and the host keeps all, it
/// leaves a lawful state.
///
/// # Errors
/// `NoMemory`; the store, the variables, the host and the budget are then those at some place of the evaluation.
pub fn evaluate<H: Host>(
    alloc: Global,
    functions: &[Function],
    unit: &Unit,
    store: &mut Store,
    globals: &mut Globals,
    host: &mut H,
    budget: &mut Budget,
) -> Result<Done, NoMemory>
    ensures on_slots { IfOk result (λ done. Ends (spec.unit functions.now H.meaning unit.now (jobs.state store.old globals.old budget.old.left, host.old)) done store.new globals.new host.new budget.new.left) }
    ensures file { (around : Surroundings) (table : List Numbered) → TableStands around functions.now table → (items : List Stmt) → FileStands around functions.now table unit.now items → store.old ≡ [] → IfOk result (λ done. StartsByNames around.tildes table items (file (keeping_whole around) H.meaning items (without_functions (jobs.state store.old globals.old budget.old.left, host.old))) done store.new globals.new host.new budget.new.left) }
    ensures client_code { (around : Surroundings) (table : List Numbered) → TableStands around functions.now table → (items : List Stmt) → ClientCodeStands around functions.now table unit.now items → (n : State × Named H) → StateStands around.tildes table (jobs.state store.old globals.old budget.old.left, host.old) n → IfOk result (λ done. EndsByNames around.tildes table (client_code (keeping_whole around) H.meaning items n) done store.new globals.new host.new budget.new.left) }
    ensures kept { (tests : Tests H) (most : ℕ) → Fit tests most H.meaning functions.now → UnitFits tests unit.now → IsLawful tests most (jobs.state store.old globals.old budget.old.left, host.old) → IfOk result (λ done. EndsKept tests most (jobs.state store.old globals.old budget.old.left, host.old) done store.new globals.new host.new budget.new.left) }
{
    mt_eval::evaluate(alloc, functions, unit, store, globals, host, budget)
}

/// Begins a job with the call of a value. That call isn't counted among those in progress. Where the functions stand for syntax, it ends as
/// the call does by names. Where the value and its arguments fit a lawful state and the host keeps all, it leaves a lawful state.
///
/// # Errors
/// `NoMemory`; the store, the variables, the host and the budget are then those at some place of the evaluation.
pub fn call<H: Host>(
    alloc: Global,
    functions: &[Function],
    function: &Value,
    arguments: &[Value],
    store: &mut Store,
    globals: &mut Globals,
    host: &mut H,
    budget: &mut Budget,
) -> Result<Done, NoMemory>
    ensures on_slots { IfOk result (λ done. Ends (spec.called functions.now H.meaning function.now arguments.now (jobs.state store.old globals.old budget.old.left, host.old)) done store.new globals.new host.new budget.new.left) }
    ensures by_names { (around : Surroundings) (table : List Numbered) → TableStands around functions.now table → (n : State × Named H) → StateStands around.tildes table (jobs.state store.old globals.old budget.old.left, host.old) n → IfOk result (λ done. EndsByNames around.tildes table (called (keeping_whole around) H.meaning function.now arguments.now n) done store.new globals.new host.new budget.new.left) }
    ensures kept { (tests : Tests H) (most : ℕ) → Fit tests most H.meaning functions.now → IsLawful tests most (jobs.state store.old globals.old budget.old.left, host.old) → IsFit tests (jobs.state store.old globals.old budget.old.left, host.old) function.now → All (IsFit tests (jobs.state store.old globals.old budget.old.left, host.old)) arguments.now → IfOk result (λ done. EndsKept tests most (jobs.state store.old globals.old budget.old.left, host.old) done store.new globals.new host.new budget.new.left) }
{
    mt_eval::call(
        alloc, functions, function, arguments, store, globals, host, budget,
    )
}
