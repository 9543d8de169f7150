//! Files in memory.

use crate::arguments::{entry, failing, list};
use anyhow::{Context, Result, bail};
use mt_outside::{FileEntry, Files, MemoryFiles, read_file};
use mt_tree::push;
use rows::{Line, add, made, quoted};
use serde_json::Value;
use std::alloc::Global;
use std::str;

/// Reads at most 7 bytes at a time of files of these names and contents: for each name and place what was read.
pub fn files(alloc: Global, line: &Line) -> Result<String> {
    let mut files = several(alloc, line)?;
    let mut all = String::new(alloc);
    for read in list(line, 2)?.chunks_exact(2) {
        add(&mut all, &part(alloc, &mut files, read)?)?;
    }
    Ok(all)
}

fn several(alloc: Global, line: &Line) -> Result<MemoryFiles> {
    let failing = failing(alloc, line, 1)?;
    let mut entries = Vec::new(alloc);
    for file in list(line, 0)?.chunks_exact(2) {
        made(push(&mut entries, named_entry(alloc, file)?))?;
    }
    made(MemoryFiles::new(alloc, entries, failing))
}

fn named_entry(alloc: Global, file: &[Value]) -> Result<FileEntry> {
    let [name, text] = file else { bail!("no pair") };
    let name = name.as_str().context("no name")?;
    let text = text.as_str().context("no text")?;
    entry(alloc, name, text.as_bytes())
}

fn part(alloc: Global, files: &mut MemoryFiles, read: &[Value]) -> Result<String> {
    let [name, at] = read else { bail!("no pair") };
    let name = name.as_str().context("no name")?;
    let at = at.as_u64().context("no place")?;
    let mut into = [0u8; 7];
    match files.read_at(name, at, &mut into) {
        Ok(count) => quoted(alloc, str::from_utf8(&into[..count])?),
        Err(fault) => Ok(format!(in alloc; "{fault:?}")?),
    }
}

/// Reads a file of this text, or one of another name.
pub fn whole_file(alloc: Global, line: &Line) -> Result<String> {
    let bytes = line.bytes(alloc, 0)?;
    let mut files = single(alloc, &bytes)?;
    match read_file(alloc, &mut files, line.text(1)?) {
        Ok(read) => compared(alloc, &read, &bytes),
        Err(fault) => Ok(format!(in alloc; "{fault:?}")?),
    }
}

fn single(alloc: Global, bytes: &[u8]) -> Result<MemoryFiles> {
    let mut entries = Vec::new(alloc);
    made(push(&mut entries, entry(alloc, "file", bytes)?))?;
    made(MemoryFiles::new(alloc, entries, Vec::new(alloc)))
}

fn compared(alloc: Global, read: &[u8], bytes: &[u8]) -> Result<String> {
    let count = read.len();
    let is_same = read == bytes;
    Ok(format!(in alloc; "{count} bytes, same {is_same}")?)
}
