//! Calls of the crates of messages, one for each line of standard input, and an answer for each on standard output.
//!
//! It promises nothing: its answers are compared with `stdout`, which is written from the format of messages.
#![tactic(auto)]

mod reading;
mod requests;
mod writing;

use anyhow::{Result, bail};
use rows::Line;
use std::alloc::Global;

fn main(rt: HostRuntime) -> Result<()> {
    for line in rt.lines(rt.alloc()) {
        let line = Line::read(rt.alloc(), &line?)?;
        let answer = answer(rt.alloc(), &line)?;
        println!(rt; "{answer}")?;
    }
    Ok(())
}

fn answer(alloc: Global, line: &Line) -> Result<String> {
    match line.call() {
        "fits" => writing::fits(alloc, line),
        "target" => writing::target(alloc, line),
        "load" => writing::load(alloc, line),
        "post" => writing::post(alloc, line),
        "reply" => writing::reply(alloc, line),
        "read_reply" => reading::reply(alloc, line),
        "stream" => reading::stream(alloc, line),
        "long_reply" => reading::long(alloc, line),
        "request" => requests::request(alloc, line),
        "long_request" => requests::long(alloc, line),
        "large_request" => requests::large(alloc, line),
        "decides" => requests::decides(alloc, line),
        other => bail!("no call {other}"),
    }
}
