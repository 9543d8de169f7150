ghost use Rattle.std.specs.Prelude.{◌≡◌};
ghost use Rattle.mt_eval_meaning.specs.Expressions as forms;
ghost use Rattle.mt_eval_meaning.specs.Runs.{Evals};
ghost use Rattle.mt_eval_meaning.specs.State as spec;
ghost use Rattle.mt_ops.specs.Errors.{settled};
ghost use Rattle.mt_ops.specs.Operators.{binary_of, unary_of};

use crate::throwing::{throw, value_or_throw};
use mt_eval_meaning::{Exit, State};
use mt_ops::{ErrorKind, Operator};
use mt_tree::{Binary, StepKind, Unary};
use mt_value::Value;
use std::alloc::Global;

/// The value of an operator between two operands.
///
/// # Errors
/// `Throw` exactly where the operator's table says so, and `NoMemory`.
#[tactic(auto, unfolding(mt_eval_meaning::specs::State::operate))]
pub fn binary(
    alloc: Global,
    state: &mut State,
    op: Binary,
    left: &Value,
    right: &Value,
) -> Result<Value, Exit>
    ensures { Evals (spec.operate (settled (binary_of op left.now right.now)) state.old) result state.new }
{
    value_or_throw(mt_ops::binary(alloc, op, left, right, &mut state.store)?)
}

/// The value of an operator before its operand.
///
/// # Errors
/// `Throw` exactly where the operator's table says so, and `NoMemory`.
#[tactic(auto, unfolding(mt_eval_meaning::specs::State::operate))]
pub fn unary(alloc: Global, state: &mut State, op: Unary, operand: &Value) -> Result<Value, Exit>
    ensures { Evals (spec.operate (settled (unary_of op operand.now)) state.old) result state.new }
{
    value_or_throw(mt_ops::unary(alloc, op, operand, &mut state.store)?)
}

fn step_binary(kind: StepKind) -> Binary
    ensures { result ≡ forms.step_binary kind }
{
    match kind {
        StepKind::IncBefore | StepKind::IncAfter => Binary::Add,
        StepKind::DecBefore | StepKind::DecAfter => Binary::Sub,
    }
}

fn step_operator(kind: StepKind) -> Operator
    ensures { result ≡ forms.step_operator kind }
{
    match kind {
        StepKind::IncBefore | StepKind::IncAfter => Operator::Increment,
        StepKind::DecBefore | StepKind::DecAfter => Operator::Decrement,
    }
}

/// The number that a step by one makes of a number.
///
/// # Errors
/// `Throw` where the operand is no number, or the result is out of range, and `NoMemory`.
#[tactic(auto, unfolding(mt_eval_meaning::specs::Expressions::stepped, mt_eval_meaning::specs::State::operate))]
pub fn count(
    alloc: Global,
    state: &mut State,
    kind: StepKind,
    operand: &Value,
) -> Result<Value, Exit>
    ensures { Evals (spec.operate (settled (forms.stepped kind operand.now)) state.old) result state.new }
{
    match operand {
        Value::Num(_) => value_or_throw(mt_ops::binary(
            alloc,
            step_binary(kind),
            operand,
            &Value::Num(1),
            &mut state.store,
        )?),
        _ => Err(throw(
            alloc,
            state,
            &ErrorKind::OperandsDoNotFit(step_operator(kind)),
        )),
    }
}
