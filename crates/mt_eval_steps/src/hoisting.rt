ghost use Rattle.std.specs.Prelude.{◌≡◌, ◌++◌, IfOk, OnOk};
ghost use Rattle.std.specs.Option.{option_copied};
ghost use Rattle.mt_eval_meaning.specs.Runs.{Evals};
ghost use Rattle.mt_eval_meaning.specs.Activations as spec;

use crate::activation::referent;
use crate::{add_cell, declare};
use mt_eval_meaning::{Exit, Function, Hoisted, State};
use mt_tree::{NoMemory, Row};
use mt_value::{Address, Cell, FunCell, Value};
use std::alloc::Global;

fn push(list: &mut Vec<Address>, at: Option<&Address>) -> Result<(), NoMemory>
    ensures { OnOk result (list.new.items ≡ list.old.items ++ spec.address_in (option_copied at.entry)) }
{
    match at {
        None => Ok(()),
        Some(at) => match list.push(*at) {
            Ok(()) => Ok(()),
            Err(_refused) => Err(NoMemory),
        },
    }
}

/// The addresses in some slots.
#[tactic(auto, using(crate::proofs::Growth::behind, crate::proofs::Growth::none_behind))]
fn captured(
    alloc: Global,
    activation: &[Address],
    mut slots: &[usize],
) -> Result<Row<Address>, NoMemory>
    ensures { IfOk result (λ made. made ≡ spec.captured activation.now slots.entry.now) }
{
    let mut made = Vec::new(alloc);
    while let [slot, rest @ ..] = slots {
        push(&mut made, activation.get(*slot))?;
        slots = rest;
    }
    Row::from_vec(alloc, made)
}

fn captures_of(function: Option<&Function>) -> &[usize]
    ensures { result.now ≡ spec.captures_of (option_copied function.entry) }
{
    match function {
        Some(function) => function.captures.items(),
        None => &[],
    }
}

/// A new function, by the number of its code, which captures variables of the activation. The answer is the address of its cell.
///
/// # Errors
/// `NoMemory`.
#[tactic(auto, unfolding(mt_eval_meaning::specs::Activations::capture))]
pub fn capture(
    alloc: Global,
    functions: &[Function],
    state: &mut State,
    function: usize,
    activation: &[Address],
) -> Result<Address, Exit>
    ensures { Evals (spec.capture functions.now function activation.now state.old) result state.new }
{
    let captured = captured(alloc, activation, captures_of(functions.get(function)))?;
    add_cell(state, Cell::Fun(FunCell { function, captured }))
}

#[tactic(auto, unfolding(mt_eval_meaning::specs::Activations::define))]
fn define(
    alloc: Global,
    functions: &[Function],
    state: &mut State,
    activation: &[Address],
    hoisted: &Hoisted,
) -> Result<(), Exit>
    ensures { Evals (spec.define functions.now activation.now hoisted.now state.old) result state.new }
{
    let at = capture(alloc, functions, state, hoisted.function, activation)?;
    let named = referent(activation, hoisted.name.binding);
    declare(state, &hoisted.name.text, named, Value::Fun(at))
}

/// Makes the functions that a body declares, in order.
///
/// # Errors
/// `NoMemory`.
pub fn define_all(
    alloc: Global,
    functions: &[Function],
    state: &mut State,
    activation: &[Address],
    mut hoisted: &[Hoisted],
) -> Result<(), Exit>
    ensures { Evals (spec.define_all functions.now activation.now hoisted.entry.now state.old) result state.new }
{
    while let [first, rest @ ..] = hoisted {
        define(alloc, functions, state, activation, first)?;
        hoisted = rest;
    }
    Ok(())
}
