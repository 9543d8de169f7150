//! Requests, read in pieces.

use anyhow::{Context, Result, bail};
use mt_http_read::RequestReader;
use mt_http_types::{Asked, Call, Feed};
use mt_json::arguments_text;
use mt_tree::{Row, Text};
use rows::{Line, made, quoted};
use std::alloc::Global;
use std::str;

// The services that the first argument names.
fn services(alloc: Global, line: &Line) -> Result<Row<Text>> {
    let names = line.argument(0)?.as_array().context("no services")?;
    let mut services = Vec::new(alloc);
    for name in names.iter() {
        let name = name.as_str().context("no name")?;
        services.push(made(Text::from_str(alloc, name))?)?;
    }
    made(Row::from_vec(alloc, services))
}

fn read(alloc: Global, services: &Row<Text>, bytes: &[u8], length: usize) -> Result<Asked> {
    let mut reader = made(RequestReader::new(alloc, services))?;
    for piece in bytes.chunks(length.max(1)) {
        made(reader.feed(piece))?;
    }
    made(reader.finish())
}

fn called(alloc: Global, word: &str, call: &Call) -> Result<String> {
    let mut arguments = Vec::new(alloc);
    made(arguments_text(alloc, &call.arguments, &mut arguments))?;
    let arguments = str::from_utf8(&arguments)?;
    let service = quoted(alloc, call.service.as_str())?;
    Ok(format!(in alloc; "{word} {service} {arguments}")?)
}

fn said(alloc: Global, asked: &Asked) -> Result<String> {
    match asked {
        Asked::Load(call) => called(alloc, "load", call),
        Asked::Post(call) => called(alloc, "post", call),
        Asked::Refused(status) => Ok(format!(in alloc; "refused {status}")?),
    }
}

// From which byte on a text decides that comes byte by byte.
fn decided_at(alloc: Global, services: &Row<Text>, bytes: &[u8]) -> Result<Option<usize>> {
    let mut reader = made(RequestReader::new(alloc, services))?;
    let mut count = 0usize;
    for piece in bytes.chunks(1) {
        count = count.saturating_add(1);
        if made(reader.feed(piece))? == Feed::Decided {
            return Ok(Some(count));
        }
    }
    Ok(None)
}

// What a text asks for that comes in two pieces.
fn halves(alloc: Global, services: &Row<Text>, front: &[u8], back: &[u8]) -> Result<String> {
    let mut reader = made(RequestReader::new(alloc, services))?;
    made(reader.feed(front))?;
    made(reader.feed(back))?;
    said(alloc, &made(reader.finish())?)
}

/// What a text asks for, and from which byte on it has decided. It is also read in two pieces, cut at each place, and so is each of
/// its beginnings, which asks for the same where it has decided, and else is refused with 400; an answer that differs is named.
pub fn request(alloc: Global, line: &Line) -> Result<String> {
    let services = services(alloc, line)?;
    let bytes = line.text(1)?.as_bytes();
    let whole = said(alloc, &read(alloc, &services, bytes, 1)?)?;
    let decided = decided_at(alloc, &services, bytes)?;
    let size = decided.unwrap_or(usize::MAX);
    for place in 0..bytes.len() {
        let (front, back) = bytes.split_at(place);
        let both = halves(alloc, &services, front, back)?;
        let one = halves(alloc, &services, front, b"")?;
        let wanted = if place < size {
            "refused 400"
        } else {
            whole.as_str()
        };
        if both != whole || one.as_str() != wanted {
            return Ok(format!(in alloc; "{whole}, but cut at {place} {both} and {one}")?);
        }
    }
    match decided {
        Some(count) => Ok(format!(in alloc; "{whole} at {count}")?),
        None => Ok(format!(in alloc; "{whole} undecided")?),
    }
}

// A front, a text as often as the count says, and a back.
fn long_text(alloc: Global, line: &Line) -> Result<Vec<u8>> {
    let mut bytes = line.text(1)?.as_bytes().to_vec(alloc)?;
    bytes.extend_from_slice(&line.bytes(alloc, 2)?)?;
    bytes.extend_from_slice(line.text(3)?.as_bytes())?;
    Ok(bytes)
}

/// What a long text asks for.
pub fn long(alloc: Global, line: &Line) -> Result<String> {
    let services = services(alloc, line)?;
    let bytes = long_text(alloc, line)?;
    let asked = read(alloc, &services, &bytes, 4096)?;
    said(alloc, &asked)
}

// What is asked for, with the size of the arguments' text in its place.
fn sized(alloc: Global, word: &str, call: &Call) -> Result<String> {
    let mut arguments = Vec::new(alloc);
    made(arguments_text(alloc, &call.arguments, &mut arguments))?;
    let count = arguments.len();
    let service = quoted(alloc, call.service.as_str())?;
    Ok(format!(in alloc; "{word} {service} {count} bytes")?)
}

/// What a long text asks for, with the size of the arguments' text in its place.
pub fn large(alloc: Global, line: &Line) -> Result<String> {
    let services = services(alloc, line)?;
    let bytes = long_text(alloc, line)?;
    match read(alloc, &services, &bytes, 4096)? {
        Asked::Load(call) => sized(alloc, "load", &call),
        Asked::Post(call) => sized(alloc, "post", &call),
        Asked::Refused(status) => Ok(format!(in alloc; "refused {status}")?),
    }
}

/// How many bytes of a text that comes byte by byte had come when it was decided, and what it then asks for.
pub fn decides(alloc: Global, line: &Line) -> Result<String> {
    let services = services(alloc, line)?;
    let bytes = long_text(alloc, line)?;
    let mut reader = made(RequestReader::new(alloc, &services))?;
    let mut count = 0u64;
    for piece in bytes.chunks(1) {
        count = count.saturating_add(1);
        if made(reader.feed(piece))? == Feed::Decided {
            let asked = made(reader.finish())?;
            let said = said(alloc, &asked)?;
            return Ok(format!(in alloc; "{count} {said}")?);
        }
    }
    bail!("{count} bytes did not decide")
}
