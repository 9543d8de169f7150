//! Runs of the top call over an outside in memory, one for each line of standard input, and an answer for each on standard output. A line
//! says the words of the command, the length of the pieces that the wire gives, and what goes wrong.
//!
//! It promises nothing: its answers are compared with `stdout`, which is written from the rules of the commands.
#![tactic(auto)]

mod runs;
mod trouble;

use anyhow::{Result, bail};
use rows::Line;
use std::alloc::Global;

fn main(rt: HostRuntime) -> Result<()> {
    for line in rt.lines(rt.alloc()) {
        let line = Line::read(rt.alloc(), &line?)?;
        let answer = answer(rt.alloc(), &line)?;
        println!(rt; "{answer}")?;
    }
    Ok(())
}

fn answer(alloc: Global, line: &Line) -> Result<String> {
    match line.call() {
        "run" => runs::run(alloc, line),
        "begins" => runs::begins(alloc, line),
        "turns" => runs::turns(alloc, line),
        other => bail!("no call {other}"),
    }
}
