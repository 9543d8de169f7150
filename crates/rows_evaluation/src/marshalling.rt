//! Values that are marshalled.

use crate::operands::{operands, steps};
use crate::shown;
use anyhow::{Result, bail};
use mt_eval_meaning::{Budget, Done};
use mt_eval_steps::nodes;
use mt_json::arguments_text;
use mt_marshal::elaborate;
use mt_tree::{Data, Row};
use mt_value::{Address, Cell, Store, Value};
use rows::{Line, add, made};
use std::alloc::Global;
use std::str;

/// The data of the operands, or how many nodes each of them has.
pub fn snapshot(alloc: Global, line: &Line) -> Result<String> {
    let (evaluated, values) = operands(alloc, line, 0)?;
    match mt_marshal::snapshot(alloc, &evaluated.store, values.as_slice()) {
        Ok(data) => counts_or_text(alloc, line, &data),
        Err(refusal) => Ok(format!(in alloc; "{refusal:?}")?),
    }
}

fn counts_or_text(alloc: Global, line: &Line, data: &Row<Data>) -> Result<String> {
    if line.call() == "nodes" {
        counts(alloc, data.items())
    } else {
        text(alloc, data)
    }
}

fn counts(alloc: Global, data: &[Data]) -> Result<String> {
    let mut all = String::new(alloc);
    for datum in data {
        add(&mut all, &format!(in alloc; "{}", nodes(datum))?)?;
    }
    Ok(all)
}

fn text(alloc: Global, data: &Row<Data>) -> Result<String> {
    let mut text = Vec::new(alloc);
    made(arguments_text(alloc, data, &mut text))?;
    Ok(String::from_str(alloc, str::from_utf8(text.as_slice())?)?)
}

/// Client code of a tilde and the operands, made with that many steps.
pub fn elaborated(alloc: Global, line: &Line) -> Result<String> {
    let (mut evaluated, values) = operands(alloc, line, 0)?;
    of_values(alloc, line, values.as_slice(), &mut evaluated.store)
}

fn of_values(alloc: Global, line: &Line, values: &[Value], store: &mut Store) -> Result<String> {
    let tilde = u32::try_from(line.number(2)?)?;
    let left = steps(line, 3)?;
    let mut budget = Budget { left };
    let done = made(elaborate(alloc, tilde, values, store, &mut budget))?;
    match &done {
        Done::Value(Value::Code(at)) => code(alloc, store, *at, budget.left),
        _ => shown::done(alloc, store, &done, budget.left),
    }
}

fn code(alloc: Global, store: &Store, at: Address, left: u64) -> Result<String> {
    match store.get(at) {
        Some(Cell::Code(code)) => {
            let tilde = code.tilde;
            let values = text(alloc, &code.values)?;
            Ok(format!(in alloc; "tilde {tilde} {values}, {left} left")?)
        }
        _ => bail!("no code"),
    }
}
