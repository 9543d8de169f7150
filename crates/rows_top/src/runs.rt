//! Runs of a small application.

use crate::trouble::Trouble;
use anyhow::{Context, Result};
use mt_outside::{ClosedDoor, FileEntry, MemoryFiles, MemorySink, MemoryWire};
use mt_top::Status;
use mt_tree::{Buffer, Text, push};
use rows::{Line, add, made, quoted};
use std::alloc::Global;
use std::str;

const APPLICATION: &[u8] = b"service hello() { return <p>hi</p>; }\n";

const SCHEDULE: &[u8] = b"load 1 /hop/hello\nserve 1.1\ndeliver 1.1\n";

// More calls than a run of these makes.
const CALLS: u64 = 300;

/// How a run ended, and what the sink holds.
#[derive(Drop)]
struct Ended {
    status: Status,
    output: String,
}

/// Carries out a command in trouble, and gives its status and its output.
pub fn run(alloc: Global, line: &Line) -> Result<String> {
    let ended = troubled(alloc, line)?;
    let status = ended.status;
    let output = quoted(alloc, &ended.output)?;
    Ok(format!(in alloc; "{status:?} {output}")?)
}

/// Carries out a command in trouble, and gives its status and whether its output begins with a text.
pub fn begins(alloc: Global, line: &Line) -> Result<String> {
    let ended = troubled(alloc, line)?;
    let status = ended.status;
    let is_beginning = ended.output.starts_with(line.text(5)?);
    Ok(format!(in alloc; "{status:?} {is_beginning}")?)
}

fn troubled(alloc: Global, line: &Line) -> Result<Ended> {
    let number = u64::try_from(line.number(3)?)?;
    let byte = u8::try_from(line.number(4)?)?;
    run_in(alloc, line, Trouble::read(alloc, line, number, byte)?)
}

/// Carries out a command once for each call of the files, the sink or the wire, with that call failing. Gives the statuses without
/// repetition, each with whether the output is a beginning of what is written without a fault.
pub fn turns(alloc: Global, line: &Line) -> Result<String> {
    let whole = run_in(alloc, line, Trouble::read(alloc, line, 0, 0)?)?;
    let mut last = String::new(alloc);
    let mut all = String::new(alloc);
    for call in 1..=CALLS {
        let ended = run_in(alloc, line, Trouble::read(alloc, line, call, 0)?)?;
        let status = ended.status;
        let is_beginning = whole.output.starts_with(ended.output.as_str());
        let turn = format!(in alloc; "{status:?} {is_beginning}")?;
        if turn.as_str() != last.as_str() {
            add(&mut all, &turn)?;
            last = turn;
        }
    }
    Ok(all)
}

fn run_in(alloc: Global, line: &Line, trouble: Trouble) -> Result<Ended> {
    let words = words(alloc, line)?;
    let mut entries = Vec::new(alloc);
    made(push(&mut entries, file(alloc, "app", APPLICATION)?))?;
    made(push(&mut entries, file(alloc, "schedule", SCHEDULE)?))?;
    let piece = trouble.piece;
    let mut files = made(MemoryFiles::new(alloc, entries, trouble.files))?;
    let mut out = MemorySink::new(alloc, trouble.sink, 50);
    let mut wire = MemoryWire::new(alloc, trouble.alterations, trouble.wire, piece);
    let mut door = ClosedDoor::new();
    let status = mt_top::run(alloc, &words, &mut files, &mut out, &mut wire, &mut door);
    let output = String::from_str(alloc, str::from_utf8(out.bytes())?)?;
    Ok(Ended { status, output })
}

fn file(alloc: Global, name: &str, bytes: &[u8]) -> Result<FileEntry> {
    let bytes = Buffer::from_vec(Vec::from_slice(alloc, bytes)?);
    let name = made(Text::from_str(alloc, name))?;
    Ok(FileEntry { name, bytes })
}

fn words(alloc: Global, line: &Line) -> Result<Vec<String>> {
    let mut words = Vec::new(alloc);
    for word in line.argument(0)?.as_array().context("no words")?.iter() {
        let word = word.as_str().context("no word")?;
        words.push(String::from_str(alloc, word)?)?;
    }
    Ok(words)
}
