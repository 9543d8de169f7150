ghost use Rattle.std.specs.Prelude.{◌≡◌, IfOk, Some, zero, suc};
ghost use Rattle.mt_eval_meaning.specs.Runs.{Evals};
ghost use Rattle.mt_eval_steps.specs.Contents as contents;
ghost use Rattle.mt_eval_meaning.specs.Activations as spec;

use crate::add_cell;
use mt_eval_meaning::{Binding, Exit, Referent, State};
use mt_tree::{Buffer, NoMemory};
use mt_value::{Address, Cell, Value};
use std::alloc::Global;

/// What a name stands for in an activation. Takes no memory.
pub fn referent(activation: &[Address], binding: Binding) -> Referent
    ensures { result ≡ spec.referent activation.now binding }
{
    match binding {
        Binding::Slot { slot, constant } => match activation.get(slot) {
            Some(at) => Referent::Variable {
                address: *at,
                constant,
            },
            None => Referent::Global,
        },
        Binding::Service => Referent::Service,
        Binding::Builtin(native) => Referent::Builtin(native),
        Binding::Global => Referent::Global,
    }
}

/// An activation with the same addresses, which can grow.
///
/// # Errors
/// `NoMemory`.
pub fn copied(alloc: Global, activation: &[Address]) -> Result<Buffer<Address>, NoMemory>
    ensures { IfOk result (λ made. made ≡ activation.now) }
{
    let mut made = Buffer::new(alloc);
    for at in activation {
        made.push(*at)?;
    }
    Ok(made)
}

fn initial(declared: bool) -> Option<Value>
    ensures { result ≡ contents.initial declared }
{
    if declared {
        Some(Value::Undefined)
    } else {
        None
    }
}

/// An activation with `count` new variables behind it, which are undefined where they are declared.
///
/// # Errors
/// `NoMemory`.
#[tactic(auto, using(crate::proofs::Growth::grown_step, crate::proofs::Growth::grown_left, crate::proofs::Growth::grown_stop))]
pub fn grown(
    state: &mut State,
    mut activation: Buffer<Address>,
    count: usize,
    declared: bool,
) -> Result<Buffer<Address>, Exit>
    ensures { Evals (spec.grown count (contents.initial declared) activation state.old) result state.new }
{
    let mut left = count;
    while left > 0 {
        let at = add_cell(state, Cell::Variable(initial(declared)))?;
        activation.push(at)?;
        left -= 1;
    }
    Ok(activation)
}

/// An activation with one new variable behind it, which has a value.
///
/// # Errors
/// `NoMemory`.
pub fn pushed(
    state: &mut State,
    mut activation: Buffer<Address>,
    value: Value,
) -> Result<Buffer<Address>, Exit>
    ensures { Evals (spec.grown (suc zero) (Some value) activation state.old) result state.new }
{
    let at = add_cell(state, Cell::Variable(Some(value)))?;
    activation.push(at)?;
    Ok(activation)
}
