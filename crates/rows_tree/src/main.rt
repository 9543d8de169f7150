//! Calls of the crates that make trees of sources, one for each line of standard input, and an answer for each on standard output: depths,
//! the numbers of tildes and dollars, substitution and the services of an application.
//!
//! It promises nothing: its answers are compared with `stdout`, which is written from the rules of the language.
#![tactic(auto)]

mod parsing;
mod sources;

use anyhow::{Result, bail};
use rows::Line;
use std::alloc::Global;

fn main(rt: HostRuntime) -> Result<()> {
    for line in rt.lines(rt.alloc()) {
        let line = Line::read(rt.alloc(), &line?)?;
        let answer = answer(rt.alloc(), &line)?;
        println!(rt; "{answer}")?;
    }
    Ok(())
}

fn answer(alloc: Global, line: &Line) -> Result<String> {
    match line.call() {
        "depth" => parsing::depth(alloc, line),
        "parse" => parsing::parse(alloc, line),
        "substitute" => parsing::substitute(alloc, line),
        "services" => sources::services(alloc, line),
        other => bail!("no call {other}"),
    }
}
