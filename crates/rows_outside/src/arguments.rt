//! Arguments that several calls take.

ghost use Rattle.std.specs.Prelude.{◌<◌, IfOk};

use anyhow::{Context, Result, bail, ensure};
use mt_outside::{Alteration, FileEntry, Slot};
use mt_tree::{Buffer, Text, push};
use rows::{Line, made};
use serde_json::Value;
use std::alloc::Global;

/// The list at a place.
pub fn list(line: &Line, at: usize) -> Result<&[Value]> {
    let items = line.argument(at)?.as_array().context("no list")?;
    Ok(items.as_slice())
}

/// The numbers of the calls that are to fail.
pub fn failing(alloc: Global, line: &Line, at: usize) -> Result<Vec<u64>> {
    let mut numbers = Vec::new(alloc);
    for item in list(line, at)? {
        numbers.push(item.as_u64().context("no number")?)?;
    }
    Ok(numbers)
}

/// The length of a piece, which is not 0.
pub fn piece(line: &Line, at: usize) -> Result<usize>
    ensures { IfOk result (λ piece. 0 < piece) }
{
    let piece = usize::try_from(line.number(at)?)?;
    ensure!(piece > 0, "no piece");
    Ok(piece)
}

/// The alterations at a place, each with whether it is one of the reply, the place of the byte, and the byte that arrives there.
pub fn alterations(alloc: Global, line: &Line, at: usize) -> Result<Vec<Alteration>> {
    let mut alterations = Vec::new(alloc);
    for item in list(line, at)? {
        made(push(&mut alterations, alteration(item)?))?;
    }
    Ok(alterations)
}

fn alteration(item: &Value) -> Result<Alteration> {
    let parts = item.as_array().context("no alteration")?;
    let [reply, offset, byte] = parts.as_slice() else {
        bail!("no alteration");
    };
    let slot = Slot {
        client: 1,
        message: 1,
        reply: reply.as_bool().context("no kind")?,
    };
    Ok(Alteration {
        slot,
        offset: offset.as_u64().context("no place")?,
        byte: u8::try_from(byte.as_u64().context("no byte")?)?,
    })
}

/// A file in memory.
pub fn entry(alloc: Global, name: &str, bytes: &[u8]) -> Result<FileEntry> {
    let bytes = Buffer::from_vec(Vec::from_slice(alloc, bytes)?);
    let name = made(Text::from_str(alloc, name))?;
    Ok(FileEntry { name, bytes })
}
