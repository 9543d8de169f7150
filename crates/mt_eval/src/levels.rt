//! The levels of an evaluation, each over the one below.

ghost use Rattle.mt_eval_meaning.specs.Runs.{Evals};
ghost use Rattle.mt_eval_meaning.specs.Slots as spec;
ghost use Rattle.mt_eval_meaning.specs.Slots.{parts};

use mt_eval_meaning::{Completion, Exit, Expr, Function, Host, State, Stmt, Stop, Unit};
use mt_eval_steps::enter_unit;
use mt_evaluator::Evaluator;
use mt_expressions::Expressions;
use mt_statements::Statements;
use mt_tree::{CALL_LIMIT, DEPTH_LIMIT};
use mt_value::{Address, Value};
use std::alloc::Global;
use std::marker::PhantomData;

/// How deep code may be.
const DEEPEST: usize = DEPTH_LIMIT as usize;

#[cycle(evaluate)]
fn expr_to<H: Host>(
    alloc: Global,
    functions: &[Function],
    calls: usize,
    depth: usize,
    activation: &[Address],
    state: &mut State,
    host: &mut H,
    e: &Expr,
) -> Result<Value, Exit>
    ensures { Evals ((parts functions.now H.meaning calls depth).expr e.now activation.now (state.old, host.old)) result (state.new, host.new) }
{
    if depth == 0 {
        return Err(Exit::Stop(Stop::Depth));
    }
    let level = Evaluator {
        alloc,
        functions,
        calls,
        depth: depth - 1,
        expr: expr_to,
        stmt: stmt_to,
        host: PhantomData,
    };
    Expressions { level }.node(activation, state, host, e)
}

#[cycle(evaluate)]
fn stmt_to<H: Host>(
    alloc: Global,
    functions: &[Function],
    calls: usize,
    depth: usize,
    activation: &[Address],
    state: &mut State,
    host: &mut H,
    t: &Stmt,
) -> Result<Completion, Exit>
    ensures { Evals ((parts functions.now H.meaning calls depth).stmt t.now activation.now (state.old, host.old)) result (state.new, host.new) }
{
    if depth == 0 {
        return Err(Exit::Stop(Stop::Depth));
    }
    let level = Evaluator {
        alloc,
        functions,
        calls,
        depth: depth - 1,
        expr: expr_to,
        stmt: stmt_to,
        host: PhantomData,
    };
    Statements { level }.node(activation, state, host, t)
}

/// Runs the code of a tier.
///
/// # Errors
/// `Throw` with the value that the code throws, `Stop` with what stops the job, and `NoMemory`.
#[tactic(auto, unfolding(mt_eval_meaning::specs::Slots::unit))]
pub fn run_unit<H: Host>(
    alloc: Global,
    functions: &[Function],
    unit: &Unit,
    state: &mut State,
    host: &mut H,
) -> Result<Value, Exit>
    ensures { Evals (spec.unit functions.now H.meaning unit.now (state.old, host.old)) result (state.new, host.new) }
{
    let activation = enter_unit(alloc, functions, state, unit)?;
    let level = Evaluator {
        alloc,
        functions,
        calls: CALL_LIMIT,
        depth: DEEPEST,
        expr: expr_to,
        stmt: stmt_to,
        host: PhantomData,
    };
    let items = unit.body.statements.items();
    Expressions { level }.body(CALL_LIMIT, DEEPEST, activation.items(), state, host, items)
}

/// Calls a value; the call itself isn't counted.
///
/// # Errors
/// `Throw` with the value that the code throws, `Stop` with what stops the job, and `NoMemory`.
#[tactic(auto, unfolding(mt_eval_meaning::specs::Slots::called))]
pub fn run_call<H: Host>(
    alloc: Global,
    functions: &[Function],
    function: &Value,
    arguments: &[Value],
    state: &mut State,
    host: &mut H,
) -> Result<Value, Exit>
    ensures { Evals (spec.called functions.now H.meaning function.now arguments.now (state.old, host.old)) result (state.new, host.new) }
{
    let level = Evaluator {
        alloc,
        functions,
        calls: CALL_LIMIT + 1,
        depth: DEEPEST,
        expr: expr_to,
        stmt: stmt_to,
        host: PhantomData,
    };
    Expressions { level }.applied(state, host, function, arguments)
}
