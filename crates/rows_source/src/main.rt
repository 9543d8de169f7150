//! Calls of the crates that read sources up to their tokens, one for each line of standard input, and an answer for each on standard
//! output: the tables of tags and attributes, places, texts by units of UTF-16, shared values, tokens, and what they stand for.
//!
//! It promises nothing: its answers are compared with `stdout`, which is written from the rules of the language.
#![tactic(auto)]

mod lexing;
mod marking;
mod placing;
mod shared;
mod tables;
mod units;

use anyhow::{Result, bail};
use rows::Line;
use std::alloc::Global;

fn main(rt: HostRuntime) -> Result<()> {
    for line in rt.lines(rt.alloc()) {
        let line = Line::read(rt.alloc(), &line?)?;
        let answer = answer(rt.alloc(), &line)?;
        println!(rt; "{answer}")?;
    }
    Ok(())
}

fn answer(alloc: Global, line: &Line) -> Result<String> {
    match line.call() {
        "tag" => tables::tag(alloc, line),
        "attribute" => tables::attribute(alloc, line),
        "place" => placing::place(alloc, line),
        "share" => shared::share(alloc, line),
        "row" => shared::row(alloc, line),
        "boxed" => shared::boxed(alloc, line),
        "buffer" => shared::buffer(alloc, line),
        "units" => units::units(alloc, line),
        "cut" => units::cut(alloc, line),
        "find" => units::find(alloc, line),
        "lex" => lexing::lex(alloc, line),
        "terminals" => marking::terminals(alloc, line),
        "name" | "number" | "text" | "quoted" | "child_text" => marking::value(alloc, line),
        other => bail!("no call {other}"),
    }
}
