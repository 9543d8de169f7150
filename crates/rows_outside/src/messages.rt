//! The messages of small applications.

use anyhow::Result;
use mt_small::{Reply, read_reply, read_request, read_small};
use rows::{Line, made, quoted};
use std::alloc::Global;

/// What the server of an application takes bytes for.
pub fn request(alloc: Global, line: &Line) -> Result<String> {
    let small = made(read_small(alloc, line.text(0)?.as_bytes()))?;
    let asked = made(read_request(alloc, &small, line.text(1)?.as_bytes()))?;
    Ok(format!(in alloc; "{asked:?}")?)
}

/// What a client takes bytes for.
pub fn reply(alloc: Global, line: &Line) -> Result<String> {
    match made(read_reply(alloc, line.text(0)?.as_bytes()))? {
        Some(Reply::Page(text)) => Ok(format!(in alloc; "page {}", quoted(alloc, text.as_str())?)?),
        Some(Reply::Failure(failure)) => Ok(format!(in alloc; "{failure:?}")?),
        None => Ok(String::from_str(alloc, "unreadable")?),
    }
}
