//! Calls of the forms of the outside in memory, of the readers of messages and of the generator, one for each line of standard input,
//! and an answer for each on standard output. The forms fail at the calls whose numbers a line says, take and give pieces of the length that
//! it says, and alter the bytes that it says.
//!
//! It promises nothing: its answers are compared with `stdout`, which is written from what each form is said to do.
#![tactic(auto)]

mod arguments;
mod door;
mod files;
mod generating;
mod messages;
mod sink;
mod wire;

use anyhow::{Result, bail};
use rows::Line;
use std::alloc::Global;

fn main(rt: HostRuntime) -> Result<()> {
    for line in rt.lines(rt.alloc()) {
        let line = Line::read(rt.alloc(), &line?)?;
        let answer = answer(rt.alloc(), &line)?;
        println!(rt; "{answer}")?;
    }
    Ok(())
}

fn answer(alloc: Global, line: &Line) -> Result<String> {
    match line.call() {
        "files" => files::files(alloc, line),
        "read_file" => files::whole_file(alloc, line),
        "sink" => sink::sink(alloc, line),
        "wire" => wire::wire(alloc, line),
        "changed" => wire::changed(alloc, line),
        "door" => door::door(alloc, line),
        "memory_door" => door::memory_door(alloc, line),
        "request" => messages::request(alloc, line),
        "reply" => messages::reply(alloc, line),
        "schedule" | "application" => generating::generated(alloc, line),
        other => bail!("no call {other}"),
    }
}
