//! Calls of the crates of client code, one for each line of standard input, and an answer for each on standard output: the words, literals
//! and operators that code begins with, code that is read or found, and code that is written from a tilde with values. A line that begins
//! with `#` is printed as it is.
//!
//! It promises nothing: its answers are compared with `stdout`, which is written from the rules of the language.
#![tactic(auto)]

mod code;
mod words;

use anyhow::{Result, bail};
use rows::Line;
use std::alloc::Global;

fn main(rt: HostRuntime) -> Result<()> {
    for text in rt.lines(rt.alloc()) {
        let text = text?;
        if text.starts_with('#') {
            println!(rt; "{text}")?;
        } else {
            let answer = answer(rt.alloc(), &Line::read(rt.alloc(), &text)?)?;
            println!(rt; "{answer}")?;
        }
    }
    Ok(())
}

fn answer(alloc: Global, line: &Line) -> Result<String> {
    match line.call() {
        "find_keyword" | "find_leader" | "is_word" => words::found(alloc, line),
        "word" | "after_word" => words::cut(alloc, line),
        "first" => words::first_byte(alloc, line),
        "read_operator" => words::operator(alloc, line),
        "string" => words::content(alloc, line),
        "text" => words::characters(alloc, line),
        "mark" => words::marked(alloc, line),
        "name" => words::named(alloc, line),
        "number" => words::numbered(alloc, line),
        "datum" => words::data(alloc, line),
        "read_code" => code::read(alloc, line),
        "fits_client" => code::fitting(alloc, line),
        "write_code" | "substitute" => code::written(alloc, line),
        other => bail!("no call {other}"),
    }
}
