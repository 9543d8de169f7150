//! The operands of calls.

use crate::sources::{Ended, evaluated};
use anyhow::{Context, Result, bail};
use mt_eval_meaning::Done;
use mt_tree::{STEP_LIMIT, push};
use mt_value::{Address, Cell, Native, Store, Value};
use rows::{Line, made};
use std::alloc::Global;

/// The operands that a line says: the values whose names are in the list at a place, and the items of the array that the source behind
/// it throws. They stand on the store of that evaluation, and the values by their names share one cell of it.
pub fn operands(alloc: Global, line: &Line, at: usize) -> Result<(Ended, Vec<Value>)> {
    let source = line.text(at.saturating_add(1))?;
    let mut evaluated = evaluated(alloc, source, STEP_LIMIT)?;
    let values = values(alloc, line, at, &mut evaluated)?;
    Ok((evaluated, values))
}

fn values(alloc: Global, line: &Line, at: usize, evaluated: &mut Ended) -> Result<Vec<Value>> {
    let cell = made(evaluated.store.add(Cell::Variable(None)))?;
    let mut values = named_values(alloc, line, at, cell)?;
    add_items(&mut values, thrown(&evaluated.done, &evaluated.store)?)?;
    Ok(values)
}

// The values whose names are in the list at a place.
fn named_values(alloc: Global, line: &Line, at: usize, cell: Address) -> Result<Vec<Value>> {
    let names = line.argument(at)?.as_array().context("no names")?;
    let mut values = Vec::new(alloc);
    for name in names.iter() {
        let name = name.as_str().context("no name")?;
        made(push(&mut values, named(name, cell)?))?;
    }
    Ok(values)
}

fn named(name: &str, cell: Address) -> Result<Value> {
    let value = match name {
        "array" => Value::Arr(cell),
        "object" => Value::Obj(cell),
        "frame" => Value::Frame(cell),
        "html" => Value::Html(cell),
        "code" => Value::Code(cell),
        other => return without_cell(other),
    };
    Ok(value)
}

fn without_cell(name: &str) -> Result<Value> {
    let value = match name {
        "node" => Value::Node(1),
        "event" => Value::Event(1),
        "alert" => Value::Native(Native::Alert),
        "document" => Value::Native(Native::Document),
        "event's name" => Value::Native(Native::Event),
        other => bail!("no value {other}"),
    };
    Ok(value)
}

// The items of the array that was thrown.
fn thrown<'s>(done: &Done, store: &'s Store) -> Result<&'s [Value]> {
    let Done::Throw(Value::Arr(at)) = done else {
        bail!("no array is thrown");
    };
    match store.get(*at) {
        Some(Cell::Arr(items)) => Ok(items.items()),
        _ => bail!("no array"),
    }
}

fn add_items(values: &mut Vec<Value>, items: &[Value]) -> Result<()> {
    for item in items.iter() {
        made(push(values, made(item.share())?))?;
    }
    Ok(())
}

/// The steps at a place.
pub fn steps(line: &Line, at: usize) -> Result<u64> {
    Ok(u64::try_from(line.number(at)?)?)
}
