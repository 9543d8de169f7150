use anyhow::{Context, Result, bail};
use mt_tree::EventKind;
use serde_json::Value;
use std::alloc::Global;

/// A word with arguments.
#[derive(Drop)]
pub struct Step<'a> {
    items: &'a [Value],
}

impl<'a> Step<'a> {
    /// The step that is a list. The error says that it is none.
    pub fn new(value: &'a Value) -> Result<Step<'a>> {
        match value {
            Value::Array(items) => Ok(Step {
                items: items.as_slice(),
            }),
            _ => bail!("no list"),
        }
    }

    /// The item at a place.
    pub fn item(&self, at: usize) -> Result<&Value> {
        self.items.get(at).context("an argument is missing")
    }

    /// The word at a place.
    pub fn word(&self, at: usize) -> Result<&str> {
        self.item(at)?.as_str().context("no word")
    }

    /// The number at a place.
    pub fn number(&self, at: usize) -> Result<usize> {
        number(self.item(at)?)
    }

    /// The list of numbers at a place.
    pub fn numbers(&self, alloc: Global, at: usize) -> Result<Vec<usize>> {
        let mut numbers = Vec::new(alloc);
        match self.item(at)? {
            Value::Array(items) => {
                for item in items.iter() {
                    numbers.push(number(item)?)?;
                }
            }
            _ => bail!("no list"),
        }
        Ok(numbers)
    }

    /// The kind at a place.
    pub fn kind(&self, at: usize) -> Result<EventKind> {
        match self.word(at)? {
            "click" => Ok(EventKind::Click),
            "input" => Ok(EventKind::Input),
            "change" => Ok(EventKind::Change),
            other => bail!("no kind {other}"),
        }
    }
}

fn number(value: &Value) -> Result<usize> {
    Ok(value.as_u64().context("no number")? as usize)
}
