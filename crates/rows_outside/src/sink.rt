//! A sink in memory.

use crate::arguments::{failing, piece};
use anyhow::Result;
use mt_outside::{MemorySink, Sink, write_all};
use rows::{Line, quoted};
use std::alloc::Global;
use std::str;

/// Writes a text whole and another in one call, and says what the sink then holds.
pub fn sink(alloc: Global, line: &Line) -> Result<String> {
    let piece = piece(line, 0)?;
    let (first, second) = (line.text(2)?, line.text(3)?);
    let mut out = MemorySink::new(alloc, failing(alloc, line, 1)?, piece);
    let whole = write_all(&mut out, first.as_bytes());
    let more = out.write(second.as_bytes());
    let held = quoted(alloc, str::from_utf8(out.bytes())?)?;
    Ok(format!(in alloc; "{whole:?} {more:?} {held}")?)
}
