ghost use Rattle.std.specs.Prelude.{◌≡◌, slice_get, IfOk};
ghost use Rattle.std.specs.Option.{option_copied};
ghost use Rattle.mt_eval_meaning.specs.References as spec;
ghost use Rattle.mt_eval_steps.specs.Readable.{is_declared, is_variable};
ghost use Rattle.mt_eval_meaning.specs.Runs.{Evals};
ghost use Rattle.mt_eval_meaning.specs.State as steps;

use crate::cells::put_cell;
use crate::throwing::throw;
use mt_eval_meaning::{Exit, Referent, State};
use mt_ops::ErrorKind;
use mt_tree::{NoMemory, Text};
use mt_value::{Address, Cell, Value};
use std::alloc::Global;

/// The value of a variable.
///
/// # Errors
/// `Throw` exactly where it isn't declared yet, and `NoMemory`.
#[tactic(auto, unfolding(mt_eval_meaning::specs::References::read_variable, mt_eval_meaning::specs::State::throw))]
pub fn read_variable(
    alloc: Global,
    state: &mut State,
    name: &Text,
    at: Address,
) -> Result<Value, Exit>
    ensures { Evals (spec.read_variable name.now at state.old) result state.new }
{
    match state.store.get(at) {
        Some(Cell::Variable(Some(value))) => Ok(value.share()?),
        _ => Err(throw(alloc, state, &ErrorKind::BeforeDeclaration(name.share()?))),
    }
}

fn is_declared(cell: Option<&Cell>) -> bool
    ensures { result ≡ is_declared (option_copied cell.entry) }
{
    matches!(cell, Some(Cell::Variable(Some(_))))
}

/// Assigns a variable.
///
/// # Errors
/// `Throw` exactly where it isn't declared yet, or else is a constant, and `NoMemory`.
#[tactic(auto, unfolding(mt_eval_meaning::specs::References::write_variable, mt_eval_meaning::specs::State::throw))]
pub fn write_variable(
    alloc: Global,
    state: &mut State,
    name: &Text,
    at: Address,
    constant: bool,
    value: Value,
) -> Result<(), Exit>
    ensures { Evals (spec.write_variable name.now at constant value state.old) result state.new }
{
    if !is_declared(state.store.get(at)) {
        return Err(throw(alloc, state, &ErrorKind::BeforeDeclaration(name.share()?)));
    }
    if constant {
        return Err(throw(alloc, state, &ErrorKind::Constant(name.share()?)));
    }
    put_cell(state, at, Cell::Variable(Some(value)))
}

/// The value of a global variable.
///
/// # Errors
/// `Throw` exactly where it isn't declared yet, and `NoMemory`.
#[tactic(auto, unfolding(mt_eval_meaning::specs::References::read_global, mt_eval_meaning::specs::State::throw))]
pub fn read_global(alloc: Global, state: &mut State, name: &Text) -> Result<Value, Exit>
    ensures { Evals (spec.read_global name.now state.old) result state.new }
{
    match state.globals.find(name) {
        Some(value) => Ok(value.share()?),
        None => Err(throw(alloc, state, &ErrorKind::NotDefined(name.share()?))),
    }
}

#[tactic(auto, unfolding(mt_eval_meaning::specs::State::put_global))]
fn put_global(state: &mut State, name: &Text, value: Value) -> Result<(), Exit>
    ensures { Evals (steps.put_global name.now value state.old) result state.new }
{
    Ok(state.globals.assign(name, value)?)
}

/// Assigns a global variable.
///
/// # Errors
/// `Throw` exactly where it isn't declared yet, and `NoMemory`.
#[tactic(auto, unfolding(mt_eval_meaning::specs::References::write_global, mt_eval_meaning::specs::State::throw))]
pub fn write_global(alloc: Global, state: &mut State, name: &Text, value: Value) -> Result<(), Exit>
    ensures { Evals (spec.write_global name.now value state.old) result state.new }
{
    match state.globals.find(name) {
        Some(_) => put_global(state, name, value),
        None => Err(throw(alloc, state, &ErrorKind::NotDefined(name.share()?))),
    }
}

/// Assigns what a name stands for.
///
/// # Errors
/// `Throw` exactly where it isn't declared yet, or else is a constant, and `NoMemory`.
#[tactic(auto, unfolding(mt_eval_meaning::specs::State::throw))]
pub fn write_name(
    alloc: Global,
    state: &mut State,
    name: &Text,
    referent: Referent,
    value: Value,
) -> Result<(), Exit>
    ensures { Evals (spec.write_name name.now referent value state.old) result state.new }
{
    match referent {
        Referent::Variable { address, constant } => {
            write_variable(alloc, state, name, address, constant, value)
        }
        Referent::Service | Referent::Builtin(_) => {
            Err(throw(alloc, state, &ErrorKind::Constant(name.share()?)))
        }
        Referent::Global => write_global(alloc, state, name, value),
    }
}

fn is_variable(cell: Option<&Cell>) -> bool
    ensures { result ≡ is_variable (option_copied cell.entry) }
{
    matches!(cell, Some(Cell::Variable(_)))
}

#[tactic(auto, using(crate::proofs::Puts::declares, crate::proofs::Puts::declares_nothing))]
fn declare_variable(state: &mut State, at: Address, value: Value) -> Result<(), Exit>
    ensures { Evals (spec.declare_variable at value state.old) result state.new }
{
    if !is_variable(state.store.get(at)) {
        return Ok(());
    }
    put_cell(state, at, Cell::Variable(Some(value)))
}

/// Gives what a declaration declares its first value.
///
/// # Errors
/// `NoMemory`.
pub fn declare(state: &mut State, name: &Text, referent: Referent, value: Value) -> Result<(), Exit>
    ensures { Evals (spec.declare name.now referent value state.old) result state.new }
{
    match referent {
        Referent::Variable {
            address,
            constant: _,
        } => { declare_variable(state, address, value) }
        Referent::Global => put_global(state, name, value),
        Referent::Service | Referent::Builtin(_) => Ok(()),
    }
}

/// Makes a global variable undefined where it isn't declared yet.
///
/// # Errors
/// `NoMemory`.
#[tactic(auto, unfolding(mt_eval_meaning::specs::References::declare_global))]
pub fn declare_global(state: &mut State, name: &Text) -> Result<(), Exit>
    ensures { Evals (spec.declare_global name.now state.old) result state.new }
{
    match state.globals.find(name) {
        Some(_) => Ok(()),
        None => put_global(state, name, Value::Undefined),
    }
}
