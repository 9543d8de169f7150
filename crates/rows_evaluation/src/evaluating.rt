//! Evaluations, calls and steps.

use crate::operands::{operands, steps};
use crate::sources::Ended;
use crate::{shown, sources};
use anyhow::{Result, bail};
use mt_builtins::PlainHost;
use mt_eval::call;
use mt_eval_meaning::{Budget, Done, State};
use mt_eval_steps::spend;
use mt_value::{Globals, Store, Value};
use rows::{Line, made};
use std::alloc::Global;

/// The top of an application, evaluated with that many steps.
pub fn evaluated(alloc: Global, line: &Line) -> Result<String> {
    let ended = sources::evaluated(alloc, line.text(0)?, steps(line, 1)?)?;
    shown::done(alloc, &ended.store, &ended.done, ended.budget.left)
}

/// The first operand called with the others, with that many steps.
pub fn called(alloc: Global, line: &Line) -> Result<String> {
    let (mut evaluated, values) = operands(alloc, line, 0)?;
    evaluated.budget.left = steps(line, 2)?;
    first_called(alloc, &mut evaluated, values.as_slice())
}

fn first_called(alloc: Global, evaluated: &mut Ended, values: &[Value]) -> Result<String> {
    let [function, arguments @ ..] = values else {
        bail!("no function");
    };
    let done = end_of_call(alloc, evaluated, function, arguments)?;
    shown::done(alloc, &evaluated.store, &done, evaluated.budget.left)
}

fn end_of_call(
    alloc: Global,
    evaluated: &mut Ended,
    function: &Value,
    arguments: &[Value],
) -> Result<Done> {
    let mut globals = Globals::new(alloc);
    let mut host = PlainHost::new(alloc);
    made(call(
        alloc,
        evaluated.units.functions(),
        function,
        arguments,
        &mut evaluated.store,
        &mut globals,
        &mut host,
        &mut evaluated.budget,
    ))
}

/// One step and that many more, taken of the steps that are left.
pub fn spent(alloc: Global, line: &Line) -> Result<String> {
    let more = steps(line, 1)?;
    let mut state = State {
        budget: steps(line, 0)?,
        store: Store::new(alloc),
        globals: Globals::new(alloc),
    };
    let is_spent = spend(&mut state, more).is_ok();
    let left = state.budget;
    Ok(format!(in alloc; "{is_spent}, {left} left")?)
}
