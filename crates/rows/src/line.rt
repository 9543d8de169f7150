use anyhow::{Context, Result, bail};
use serde_json::Value;
use std::alloc::Global;

/// A call with its arguments.
#[derive(Drop)]
pub struct Line {
    call: String,
    arguments: Vec<Value>,
    count: usize,
}

impl Line {
    /// The call that a line spells. The errors are want of memory, a line without an argument, and an argument that is no JSON text.
    pub fn read(alloc: Global, line: &str) -> Result<Line> {
        let (call, rest) = line.split_once(' ').context("no argument")?;
        let (text, count) = counted(rest);
        let arguments = match Value::from_str(alloc, text)? {
            Value::Array(items) => items,
            other => vec![in alloc; other]?,
        };
        let call = String::from_str(alloc, call)?;
        Ok(Line {
            call,
            arguments,
            count,
        })
    }

    /// The name of the call.
    pub fn call(&self) -> &str {
        self.call.as_str()
    }

    /// All of the arguments.
    pub fn arguments(&self) -> &[Value] {
        self.arguments.as_slice()
    }

    /// How often a long text is repeated, from 1 on.
    pub fn count(&self) -> usize {
        self.count
    }

    /// The argument at a place, from 0.
    pub fn argument(&self, at: usize) -> Result<&Value> {
        self.arguments.get(at).context("an argument is missing")
    }

    /// The text at a place. The error says that there is none.
    pub fn text(&self, at: usize) -> Result<&str> {
        self.argument(at)?.as_str().context("no text")
    }

    /// The number at a place. The error says that there is none.
    pub fn number(&self, at: usize) -> Result<i64> {
        self.argument(at)?.as_i64().context("no number")
    }

    /// The bytes of the text at a place, as often as the count says, or those of a list of numbers.
    pub fn bytes(&self, alloc: Global, at: usize) -> Result<Vec<u8>> {
        let mut bytes = Vec::new(alloc);
        match self.argument(at)? {
            Value::Array(items) => {
                for item in items.iter() {
                    let byte = item.as_u64().context("no byte")?;
                    bytes.push(u8::try_from(byte)?)?;
                }
            }
            other => {
                let text = other.as_str().context("no text")?.as_bytes();
                for _again in 0..self.count {
                    bytes.extend_from_slice(text)?;
                }
            }
        }
        Ok(bytes)
    }
}

// The JSON text, and the count behind it where there is one.
fn counted(rest: &str) -> (&str, usize) {
    if let Some((text, digits)) = rest.rsplit_once(' ')
        && let Ok(count) = digits.parse::<usize>()
    {
        return (text, count);
    }
    (rest, 1)
}

/// A text as JSON text, in quotes.
pub fn quoted(alloc: Global, text: &str) -> Result<String> {
    Ok(serde_json::to_string(alloc, &text)?)
}

/// Adds a word to words, behind a space where it is not the first.
pub fn add(words: &mut String, word: &str) -> Result<()> {
    if !words.is_empty() {
        words.push(' ')?;
    }
    words.push_str(word)?;
    Ok(())
}

/// The value of a call that is to succeed. The error says only that it did not.
pub fn made<T, E: Drop>(answer: Result<T, E>) -> Result<T> {
    match answer {
        Ok(value) => Ok(value),
        Err(_refused) => bail!("a call was refused"),
    }
}
