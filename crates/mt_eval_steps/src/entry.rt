ghost use Rattle.std.specs.Prelude.{◌≡◌, IfOk, map};
ghost use Rattle.mt_eval_meaning.specs.Entering as entering;
ghost use Rattle.mt_eval_meaning.specs.Runs.{Evals, each};
ghost use Rattle.mt_eval_meaning.specs.References as references;
ghost use Rattle.mt_eval_meaning.specs.Activations as spec;

use crate::activation::{grown, pushed};
use crate::hoisting::define_all;
use crate::{add_cell, declare_global};
use mt_eval_meaning::{Body, Exit, Function, State, Unit};
use mt_tree::{Buffer, NoMemory, Text};
use mt_value::{Address, Cell, Value};
use std::alloc::Global;

fn first(arguments: &[Value]) -> Result<Value, NoMemory>
    ensures { IfOk result (λ value. value ≡ entering.first arguments.now) }
{
    match arguments {
        [] => Ok(Value::Undefined),
        [value, ..] => value.share(),
    }
}

fn rest(arguments: &[Value]) -> &[Value]
    ensures { result.now ≡ entering.rest arguments.now }
{
    match arguments {
        [] => arguments,
        [_, rest @ ..] => rest,
    }
}

/// An activation with a variable for each parameter.
#[tactic(auto, using(crate::proofs::Growth::parameters_step, crate::proofs::Growth::parameters_left, crate::proofs::Growth::parameters_stop))]
fn with_parameters(
    state: &mut State,
    mut activation: Buffer<Address>,
    count: usize,
    mut arguments: &[Value],
) -> Result<Buffer<Address>, Exit>
    ensures { Evals (spec.with_parameters count arguments.entry.now activation state.old) result state.new }
{
    let mut left = count;
    while left > 0 {
        let at = add_cell(state, Cell::Variable(Some(first(arguments)?)))?;
        activation.push(at)?;
        arguments = rest(arguments);
        left -= 1;
    }
    Ok(activation)
}

fn with_own(
    state: &mut State,
    activation: Buffer<Address>,
    own: bool,
    at: Address,
) -> Result<Buffer<Address>, Exit>
    ensures { Evals (spec.with_own own at activation state.old) result state.new }
{
    if own {
        let named = pushed(state, activation, Value::Fun(at))?;
        return Ok(named);
    }
    Ok(activation)
}

#[tactic(auto, unfolding(mt_eval_meaning::specs::Activations::enter_body))]
fn enter_body(
    alloc: Global,
    functions: &[Function],
    state: &mut State,
    body: &Body,
    activation: Buffer<Address>,
) -> Result<Buffer<Address>, Exit>
    ensures { Evals (spec.enter_body functions.now body.now activation state.old) result state.new }
{
    let declared = grown(state, activation, body.variables, true)?;
    let inner = grown(state, declared, body.undeclared, false)?;
    define_all(alloc, functions, state, inner.items(), body.hoisted.items())?;
    Ok(inner)
}

/// Enters the function in the cell at `at`: the activation that its body has, over the captured addresses.
///
/// # Errors
/// `NoMemory`.
#[tactic(auto, unfolding(mt_eval_meaning::specs::Activations::enter_function))]
pub fn enter_function(
    alloc: Global,
    functions: &[Function],
    state: &mut State,
    function: &Function,
    captured: Buffer<Address>,
    at: Address,
    arguments: &[Value],
) -> Result<Buffer<Address>, Exit>
    ensures { Evals (spec.enter_function functions.now function.now captured at arguments.now state.old) result state.new }
{
    let named = with_own(state, captured, function.own, at)?;
    let given = with_parameters(state, named, function.parameters, arguments)?;
    enter_body(alloc, functions, state, &function.body, given)
}

fn declare_globals(state: &mut State, mut names: &[Text]) -> Result<(), Exit>
    ensures { Evals (each (map references.declare_global names.entry.now) state.old) result state.new }
{
    while let [name, rest @ ..] = names {
        declare_global(state, name)?;
        names = rest;
    }
    Ok(())
}

/// Enters the code of a tier: the activation that its statements have.
///
/// # Errors
/// `NoMemory`.
#[tactic(auto, unfolding(mt_eval_meaning::specs::Activations::enter_unit))]
pub fn enter_unit(
    alloc: Global,
    functions: &[Function],
    state: &mut State,
    unit: &Unit,
) -> Result<Buffer<Address>, Exit>
    ensures { Evals (spec.enter_unit functions.now unit.now state.old) result state.new }
{
    declare_globals(state, unit.globals.items())?;
    enter_body(alloc, functions, state, &unit.body, Buffer::new(alloc))
}
