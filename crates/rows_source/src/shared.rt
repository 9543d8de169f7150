//! Values that are shared, and lists that grow.

use anyhow::{Context, Result};
use mt_tree::{Boxed, Buffer, Data, Row, Text, push};
use rows::{Line, made, quoted};
use std::alloc::Global;

/// A text, and what its second owner sees of it.
pub fn share(alloc: Global, line: &Line) -> Result<String> {
    let characters = line.text(0)?;
    let text = made(Text::from_str(alloc, characters))?;
    let units = text.units();
    let bytes = text.as_bytes().len();
    let is_same = text.is(characters) && made(text.share())? == text;
    let shared = match made(Data::Text(text).share())? {
        Data::Text(shared) => quoted(alloc, shared.as_str())?,
        _ => String::new(alloc),
    };
    Ok(format!(in alloc; "{units} units, {bytes} bytes, same {is_same}, shared {shared}")?)
}

/// What the second owner of a row of numbers sees.
pub fn row(alloc: Global, line: &Line) -> Result<String> {
    let numbers = numbers(alloc, line)?;
    let row = made(Row::from_vec(alloc, numbers))?;
    let shared = made(row.share())?;
    let is_same = shared == row;
    let items = shared.items();
    Ok(format!(in alloc; "same {is_same}, items {items:?}")?)
}

/// What a box holds, seen and taken out.
pub fn boxed(alloc: Global, line: &Line) -> Result<String> {
    let boxed = made(Boxed::new(alloc, line.number(0)?))?;
    let seen = *boxed.get();
    let taken = boxed.into_inner();
    Ok(format!(in alloc; "seen {seen}, taken {taken}")?)
}

/// A buffer to which numbers are pushed, the first of them replaced by 3, and the last taken.
pub fn buffer(alloc: Global, line: &Line) -> Result<String> {
    let mut buffer = Buffer::new(alloc);
    let none = buffer.pop();
    for number in numbers(alloc, line)? {
        made(buffer.push(number))?;
    }
    let replaced = if buffer.items().is_empty() {
        None
    } else {
        Some(buffer.replace(0, 3))
    };
    let all = format!(in alloc; "{:?}", buffer.items())?;
    let last = buffer.pop();
    let made = Buffer::from_vec(numbers(alloc, line)?);
    let items = made.items();
    Ok(format!(in alloc;
        "{none:?}, replaced {replaced:?}, items {all}, last {last:?}, of a list {items:?}"
    )?)
}

fn numbers(alloc: Global, line: &Line) -> Result<Vec<i64>> {
    let mut numbers = Vec::new(alloc);
    for argument in line.arguments() {
        made(push(&mut numbers, argument.as_i64().context("no number")?))?;
    }
    Ok(numbers)
}
