//! Operators and properties, and what they and the methods cost.

use crate::operands::operands;
use crate::shown;
use anyhow::{Result, bail};
use mt_ops::Outcome;
use mt_ops_methods::method_cost;
use mt_ops_properties::{binary_cost, get_property, property_cost, set_property, unary_cost};
use mt_tree::{Binary, NoMemory, Text, Unary};
use mt_value::{Store, Value};
use rows::{Line, made};
use std::alloc::Global;

/// An operator between two operands, or what it costs.
pub fn binary(alloc: Global, line: &Line) -> Result<String> {
    let op = binary_named(line.text(0)?)?;
    let (mut evaluated, values) = operands(alloc, line, 1)?;
    binary_of(alloc, line, op, values.as_slice(), &mut evaluated.store)
}

fn binary_of(
    alloc: Global,
    line: &Line,
    op: Binary,
    values: &[Value],
    store: &mut Store,
) -> Result<String> {
    let [left, right] = values else {
        bail!("not two operands");
    };
    if line.call() == "binary_cost" {
        return cost(alloc, binary_cost(op, left, right));
    }
    let outcome = mt_ops::binary(alloc, op, left, right, store);
    came_to(alloc, store, outcome)
}

fn binary_named(name: &str) -> Result<Binary> {
    let op = match name {
        "+" => Binary::Add,
        "*" => Binary::Mul,
        "<" => Binary::Less,
        "===" => Binary::Same,
        "!==" => Binary::Different,
        other => bail!("no operator {other}"),
    };
    Ok(op)
}

/// An operator before its operand, or what it costs.
pub fn unary(alloc: Global, line: &Line) -> Result<String> {
    let op = unary_named(line.text(0)?)?;
    let (mut evaluated, values) = operands(alloc, line, 1)?;
    unary_of(alloc, line, op, values.as_slice(), &mut evaluated.store)
}

fn unary_of(
    alloc: Global,
    line: &Line,
    op: Unary,
    values: &[Value],
    store: &mut Store,
) -> Result<String> {
    let [operand] = values else {
        bail!("not one operand");
    };
    if line.call() == "unary_cost" {
        return cost(alloc, unary_cost(op, operand));
    }
    let outcome = mt_ops::unary(alloc, op, operand, store);
    came_to(alloc, store, outcome)
}

fn unary_named(name: &str) -> Result<Unary> {
    let op = match name {
        "!" => Unary::Not,
        "-" => Unary::Minus,
        "+" => Unary::Plus,
        "typeof" => Unary::Typeof,
        other => bail!("no operator {other}"),
    };
    Ok(op)
}

/// A property that is read, or what that costs.
pub fn read(alloc: Global, line: &Line) -> Result<String> {
    let (mut evaluated, values) = operands(alloc, line, 0)?;
    read_of(alloc, line, values.as_slice(), &mut evaluated.store)
}

fn read_of(alloc: Global, line: &Line, values: &[Value], store: &mut Store) -> Result<String> {
    let [base, key] = values else {
        bail!("no base and key");
    };
    if line.call() == "property_cost" {
        return cost(alloc, property_cost(base, key));
    }
    let outcome = get_property(alloc, base, key, store);
    came_to(alloc, store, outcome)
}

/// A property that is written.
pub fn written(alloc: Global, line: &Line) -> Result<String> {
    let (mut evaluated, values) = operands(alloc, line, 0)?;
    written_of(alloc, values.as_slice(), &mut evaluated.store)
}

fn written_of(alloc: Global, values: &[Value], store: &mut Store) -> Result<String> {
    let [base, key, value] = values else {
        bail!("no base, key and value");
    };
    let outcome = set_property(alloc, base, key, value, store);
    came_to(alloc, store, outcome)
}

/// What a call of a method costs.
pub fn method(alloc: Global, line: &Line) -> Result<String> {
    let (evaluated, values) = operands(alloc, line, 1)?;
    method_of(alloc, line.text(0)?, values.as_slice(), &evaluated.store)
}

fn method_of(alloc: Global, name: &str, values: &[Value], store: &Store) -> Result<String> {
    let [base, arguments @ ..] = values else {
        bail!("no base");
    };
    let key = made(Text::from_str(alloc, name))?;
    cost(alloc, method_cost(base, &key, arguments, store))
}

fn cost(alloc: Global, steps: u64) -> Result<String> {
    Ok(format!(in alloc; "{steps}")?)
}

fn came_to(alloc: Global, store: &Store, outcome: Result<Outcome, NoMemory>) -> Result<String> {
    shown::outcome(alloc, store, &made(outcome)?)
}
