//! How answers are written.

use anyhow::{Context, Result};
use mt_eval_meaning::Done;
use mt_json::data_text;
use mt_marshal::snapshot;
use mt_ops::Outcome;
use mt_ops_properties::error_text;
use mt_tree::Data;
use mt_value::{Store, Value};
use rows::made;
use std::alloc::Global;
use std::{slice, str};

/// The text of a datum.
pub fn datum(alloc: Global, datum: &Data) -> Result<String> {
    let mut text = Vec::new(alloc);
    made(data_text(alloc, datum, &mut text))?;
    Ok(String::from_str(alloc, str::from_utf8(text.as_slice())?)?)
}

/// The text of the datum that a value is, or why it is none.
fn value(alloc: Global, store: &Store, value: &Value) -> Result<String> {
    match snapshot(alloc, store, slice::from_ref(value)) {
        Ok(data) => datum(alloc, data.items().first().context("no datum")?),
        Err(refusal) => Ok(format!(in alloc; "{refusal:?}")?),
    }
}

/// The text of an error, behind the word `throw`.
fn thrown(alloc: Global, store: &Store, value: &Value) -> Result<String> {
    let text = made(error_text(alloc, value, store))?;
    Ok(format!(in alloc; "throw {}", text.as_str())?)
}

/// What an operation came to.
pub fn outcome(alloc: Global, store: &Store, outcome: &Outcome) -> Result<String> {
    match outcome {
        Outcome::Value(given) => value(alloc, store, given),
        Outcome::Throw(given) => thrown(alloc, store, given),
    }
}

/// How an evaluation ended, and the steps that are left.
pub fn done(alloc: Global, store: &Store, done: &Done, left: u64) -> Result<String> {
    let end = end(alloc, store, done)?;
    Ok(format!(in alloc; "{end}, {left} left")?)
}

fn end(alloc: Global, store: &Store, done: &Done) -> Result<String> {
    match done {
        Done::Value(given) => value(alloc, store, given),
        Done::Throw(given) => thrown(alloc, store, given),
        Done::Stop(stop) => Ok(format!(in alloc; "{stop:?}")?),
    }
}
