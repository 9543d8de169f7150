//! Calls of the crates of values and of evaluation, one for each line of standard input, and an answer for each on standard output:
//! operators and properties, what they cost, steps, evaluations and calls, services, and values that are marshalled. A line that begins
//! with `#` is printed as it is.
//!
//! The operands of a call are values by their names, in a list, and behind them the items of the array that a source throws.
//!
//! It promises nothing: its answers are compared with `stdout`, which is written from the rules of the language.
#![tactic(auto)]

mod evaluating;
mod marshalling;
mod operands;
mod operators;
mod resolving;
mod shown;
mod sources;

use anyhow::{Result, bail};
use rows::Line;
use std::alloc::Global;

fn main(rt: HostRuntime) -> Result<()> {
    for text in rt.lines(rt.alloc()) {
        let text = text?;
        if text.starts_with('#') {
            println!(rt; "{text}")?;
        } else {
            let answer = answer(rt.alloc(), &Line::read(rt.alloc(), &text)?)?;
            println!(rt; "{answer}")?;
        }
    }
    Ok(())
}

fn answer(alloc: Global, line: &Line) -> Result<String> {
    match line.call() {
        "binary" | "binary_cost" => operators::binary(alloc, line),
        "unary" | "unary_cost" => operators::unary(alloc, line),
        "get_property" | "property_cost" => operators::read(alloc, line),
        "set_property" => operators::written(alloc, line),
        "method_cost" => operators::method(alloc, line),
        "evaluate" => evaluating::evaluated(alloc, line),
        "call" => evaluating::called(alloc, line),
        "spend" => evaluating::spent(alloc, line),
        "captured" => resolving::captured(alloc, line),
        "resolve_client" => resolving::client(alloc, line),
        "snapshot" | "nodes" => marshalling::snapshot(alloc, line),
        "elaborate" => marshalling::elaborated(alloc, line),
        other => bail!("no call {other}"),
    }
}
