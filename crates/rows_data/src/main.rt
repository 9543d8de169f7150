//! Calls of the crates of data, one for each line of standard input, and an answer for each on standard output: texts of data that are
//! read and written, data as values, the cells of a store and the global variables of a client. A line that begins with `#` is printed as
//! it is.
//!
//! It promises nothing: its answers are compared with `stdout`, which is written from the rules of the language.
#![tactic(auto)]

mod cells;
mod pieces;
mod texts;

use anyhow::{Result, bail};
use rows::Line;
use std::alloc::Global;

fn main(rt: HostRuntime) -> Result<()> {
    for text in rt.lines(rt.alloc()) {
        let text = text?;
        if text.starts_with('#') {
            println!(rt; "{text}")?;
        } else {
            let answer = answer(rt.alloc(), &Line::read(rt.alloc(), &text)?)?;
            println!(rt; "{answer}")?;
        }
    }
    Ok(())
}

fn answer(alloc: Global, line: &Line) -> Result<String> {
    match line.call() {
        "read_data" => texts::datum(alloc, line),
        "read_arguments" => texts::arguments(alloc, line),
        "json_text" => texts::written(alloc, line),
        "nodes" => texts::count(alloc, line),
        "build" => cells::built(alloc, line),
        "cells" => cells::cells(alloc, line),
        "globals" => cells::globals(alloc, line),
        "past_comma" | "skip" | "append_separator" => pieces::cut(alloc, line),
        "is_digit" | "hexadecimal" | "hexadecimal_digit" => pieces::digit(alloc, line),
        other => bail!("no call {other}"),
    }
}
