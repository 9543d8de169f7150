//! Texts of data.

use anyhow::Result;
use mt_eval_steps::nodes;
use mt_json::{arguments_text, data_text, json_text, read_arguments, read_data};
use mt_tree::{Data, Text};
use rows::{Line, made};
use std::alloc::Global;
use std::str;

/// The datum of a text, written again.
pub fn datum(alloc: Global, line: &Line) -> Result<String> {
    let bytes = joined(alloc, line)?;
    match read_data(alloc, bytes.as_slice()) {
        Ok(datum) => text_of(alloc, &datum),
        Err(refusal) => Ok(format!(in alloc; "{refusal:?}")?),
    }
}

/// The arguments of a text, written again.
pub fn arguments(alloc: Global, line: &Line) -> Result<String> {
    let bytes = joined(alloc, line)?;
    match read_arguments(alloc, bytes.as_slice()) {
        Ok(arguments) => {
            let mut text = Vec::new(alloc);
            made(arguments_text(alloc, &arguments, &mut text))?;
            Ok(String::from_str(alloc, str::from_utf8(text.as_slice())?)?)
        }
        Err(refusal) => Ok(format!(in alloc; "{refusal:?}")?),
    }
}

/// The JSON text of a text.
pub fn written(alloc: Global, line: &Line) -> Result<String> {
    let text = made(Text::from_str(alloc, line.text(0)?))?;
    let mut into = Vec::new(alloc);
    made(json_text(&text, &mut into))?;
    Ok(String::from_str(alloc, str::from_utf8(into.as_slice())?)?)
}

/// The number of nodes of the datum of a text.
pub fn count(alloc: Global, line: &Line) -> Result<String> {
    let datum = made(read_data(alloc, line.text(0)?.as_bytes()))?;
    Ok(format!(in alloc; "{}", nodes(&datum))?)
}

/// The text of a datum.
pub fn text_of(alloc: Global, datum: &Data) -> Result<String> {
    let mut text = Vec::new(alloc);
    made(data_text(alloc, datum, &mut text))?;
    Ok(String::from_str(alloc, str::from_utf8(text.as_slice())?)?)
}

// Each text of the line as often as the count says, one behind the other.
fn joined(alloc: Global, line: &Line) -> Result<Vec<u8>> {
    let mut bytes = Vec::new(alloc);
    for at in 0..line.arguments().len() {
        bytes.extend_from_slice(line.bytes(alloc, at)?.as_slice())?;
    }
    Ok(bytes)
}
