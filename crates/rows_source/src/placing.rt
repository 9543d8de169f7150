//! Places in a source.

use anyhow::{Result, ensure};
use mt_tree::{Place, SOURCE_LIMIT};
use rows::Line;
use std::alloc::Global;

/// The place of a byte of a text.
pub fn place(alloc: Global, line: &Line) -> Result<String> {
    let source = line.bytes(alloc, 0)?;
    let at = u32::try_from(line.number(1)?)?;
    ensure!(
        source.len() <= SOURCE_LIMIT && at as usize <= source.len(),
        "no place"
    );
    spelled(alloc, Place::of(&source, at))
}

/// A place as its line and its column.
pub fn spelled(alloc: Global, place: Place) -> Result<String> {
    let line = place.line;
    let column = place.column;
    Ok(format!(in alloc; "{line}:{column}")?)
}
