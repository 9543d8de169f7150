//! Texts by units of UTF-16.

use anyhow::Result;
use mt_tree::{Text, decimal_units};
use rows::{Line, made, quoted};
use std::alloc::Global;

/// The units of a number in decimal form.
pub fn units(alloc: Global, line: &Line) -> Result<String> {
    let units = decimal_units(line.number(0)?);
    Ok(format!(in alloc; "{units}")?)
}

/// The part of a text between two places.
pub fn cut(alloc: Global, line: &Line) -> Result<String> {
    let text = made(Text::from_str(alloc, line.text(0)?))?;
    let from = usize::try_from(line.number(1)?)?;
    let to = usize::try_from(line.number(2)?)?;
    match made(mt_tree::cut(alloc, &text, from, to))? {
        Some(part) => quoted(alloc, part.as_str()),
        None => Ok(String::from_str(alloc, "none")?),
    }
}

/// The first place at which a text stands in another.
pub fn find(alloc: Global, line: &Line) -> Result<String> {
    let text = made(Text::from_str(alloc, line.text(0)?))?;
    let sought = made(Text::from_str(alloc, line.text(1)?))?;
    match mt_tree::find(&text, &sought) {
        Some(place) => Ok(format!(in alloc; "{place}")?),
        None => Ok(String::from_str(alloc, "none")?),
    }
}
