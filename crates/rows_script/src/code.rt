//! Client code that is read, and that is written from a tilde with values.

use crate::words::{refused, text_of};
use anyhow::{Context, Result, ensure};
use mt_json::read_arguments;
use mt_script_read::read_code;
use mt_script_tree::read_statements;
use mt_script_write::{code_text, write_code};
use mt_source::read_source;
use mt_stage::fits_client;
use mt_syntax::{Code, substitute};
use mt_tree::{DEPTH_LIMIT, SOURCE_LIMIT};
use rows::{Line, made};
use std::alloc::Global;

/// The code that the bytes are the text of, written again.
pub fn read(alloc: Global, line: &Line) -> Result<String> {
    let bytes = line.bytes(alloc, 0)?;
    match read_code(alloc, bytes.as_slice()) {
        Ok(code) => {
            let mut text = Vec::new(alloc);
            made(code_text(alloc, &code, &mut text))?;
            let text = text_of(alloc, text.as_slice())?;
            Ok(format!(in alloc; "code {text}")?)
        }
        Err(refusal) => refused(alloc, refusal),
    }
}

/// Whether what is found leniently in the bytes keeps the rules on names that are declared twice and on jumps.
pub fn fitting(alloc: Global, line: &Line) -> Result<String> {
    let bytes = line.bytes(alloc, 0)?;
    let body = made(read_statements(alloc, DEPTH_LIMIT as u32, bytes.as_slice()))?;
    let fits = fits_client(&Code { body });
    Ok(format!(in alloc; "{fits}")?)
}

/// The text of the first tilde of a source with values in place of its dollars: at once, or from the code that substitution gives.
pub fn written(alloc: Global, line: &Line) -> Result<String> {
    let source = line.bytes(alloc, 0)?;
    ensure!(source.len() <= SOURCE_LIMIT, "too long");
    let checked = made(read_source(alloc, source.as_slice()))?;
    let tilde = checked
        .program()
        .tildes
        .items()
        .first()
        .context("no tilde")?;
    let values = made(read_arguments(alloc, line.text(1)?.as_bytes()))?;
    let mut text = Vec::new(alloc);
    if line.call() == "write_code" {
        made(write_code(alloc, tilde, &values, &mut text))?;
    } else {
        let code = made(substitute(alloc, tilde, &values))?;
        made(code_text(alloc, &code, &mut text))?;
    }
    text_of(alloc, text.as_slice())
}
