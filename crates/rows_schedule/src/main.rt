//! Calls of the reader of schedules, one for each line of standard input, and an answer for each on standard output. A schedule is given as what
//! stands in front, a text or a list of bytes that is repeated, and what stands behind; a line as itself and its version.
//!
//! It promises nothing: its answers are compared with `stdout`, which is written from the format of schedules.
#![tactic(auto)]

use anyhow::{Result, bail};
use mt_schedule::{
    Command, LineRefusal, ScheduleRefusal, read_command, read_schedule, write_command,
};
use rows::{Line, made, quoted};
use std::alloc::Global;
use std::str;

fn main(rt: HostRuntime) -> Result<()> {
    for line in rt.lines(rt.alloc()) {
        let line = Line::read(rt.alloc(), &line?)?;
        let answer = answer(rt.alloc(), &line)?;
        println!(rt; "{answer}")?;
    }
    Ok(())
}

fn answer(alloc: Global, line: &Line) -> Result<String> {
    match line.call() {
        "schedule" => schedule(alloc, line),
        "command" => command(alloc, line),
        other => bail!("no call {other}"),
    }
}

// The command as a transcript shows it.
fn shown(alloc: Global, command: &Command) -> Result<String> {
    let mut text = Vec::new(alloc);
    made(write_command(alloc, command, &mut text))?;
    quoted(alloc, str::from_utf8(text.as_slice())?)
}

// The count of the commands, and the first few of them.
fn schedule(alloc: Global, line: &Line) -> Result<String> {
    let mut bytes = Vec::from_slice(alloc, line.text(0)?.as_bytes())?;
    bytes.extend_from_slice(line.bytes(alloc, 1)?.as_slice())?;
    bytes.extend_from_slice(line.text(2)?.as_bytes())?;
    match read_schedule(alloc, bytes.as_slice()) {
        Ok(schedule) => {
            let count = schedule.commands.items().len();
            let mut answer = format!(in alloc; "{count}")?;
            for command in schedule.commands.items().iter().take(4) {
                let command = shown(alloc, command)?;
                answer.push(' ')?;
                answer.push_str(command.as_str())?;
            }
            Ok(answer)
        }
        Err(ScheduleRefusal::BadLine(number)) => {
            Ok(format!(in alloc; "bad schedule line {number}")?)
        }
        Err(ScheduleRefusal::TooManyLines(number)) => {
            Ok(format!(in alloc; "too many lines {number}")?)
        }
        Err(ScheduleRefusal::NoMemory) => bail!("no memory"),
    }
}

fn command(alloc: Global, line: &Line) -> Result<String> {
    let bytes = line.bytes(alloc, 0)?;
    let version = if line.number(1)? == 2 { 2 } else { 1 };
    match read_command(alloc, bytes.as_slice(), version) {
        Ok(Some(command)) => shown(alloc, &command),
        Ok(None) => Ok(String::from_str(alloc, "none")?),
        Err(LineRefusal::Bad) => Ok(String::from_str(alloc, "bad")?),
        Err(LineRefusal::NoMemory) => bail!("no memory"),
    }
}
