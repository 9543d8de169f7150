//! The tables of tags and attributes.

use anyhow::Result;
use mt_tree::{attribute_fits, handler_known, tag_known, tag_void};
use rows::Line;
use std::alloc::Global;

/// Whether a tag is known, and whether it is void.
pub fn tag(alloc: Global, line: &Line) -> Result<String> {
    let name = line.text(0)?.as_bytes();
    let known = tag_known(name);
    let void = tag_void(name);
    Ok(format!(in alloc; "known {known}, void {void}")?)
}

/// Whether an attribute may have a name, and whether it is a handler.
pub fn attribute(alloc: Global, line: &Line) -> Result<String> {
    let name = line.text(0)?.as_bytes();
    let fits = attribute_fits(name);
    let handler = handler_known(name);
    Ok(format!(in alloc; "fits {fits}, handler {handler}")?)
}
