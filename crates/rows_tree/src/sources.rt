//! Accepted applications.

use anyhow::{Result, ensure};
use mt_source::read_source;
use mt_tree::SOURCE_LIMIT;
use rows::{Line, add};
use std::alloc::Global;

/// How many statements an application has at its top, and its services; or its refusal.
pub fn services(alloc: Global, line: &Line) -> Result<String> {
    let source = line.bytes(alloc, 0)?;
    ensure!(source.len() <= SOURCE_LIMIT, "too long");
    let checked = match read_source(alloc, &source) {
        Ok(checked) => checked,
        Err(refusal) => return Ok(format!(in alloc; "{refusal:?}")?),
    };
    let count = checked.program().items.items().len();
    let mut all = format!(in alloc; "{count} statements, services")?;
    for service in checked.services().items() {
        add(&mut all, service.as_str())?;
    }
    Ok(all)
}
