//! Data as values, the cells of a store, and global variables.

ghost use Rattle.std.specs.Prelude.{◌<◌, length};

use crate::texts::text_of;
use anyhow::{Context, Result, bail};
use mt_json::read_data;
use mt_marshal::{build, snapshot};
use mt_tree::{Buffer, Text, push};
use mt_value::{Address, Cell, Globals, Store, Value};
use rows::{Line, add, made};
use std::alloc::Global;
use std::slice;

/// The datum that the value built of a datum is.
pub fn built(alloc: Global, line: &Line) -> Result<String> {
    let datum = made(read_data(alloc, line.text(0)?.as_bytes()))?;
    let mut store = Store::new(alloc);
    let value = made(build(alloc, &datum, &mut store))?;
    let again = made(snapshot(alloc, &store, slice::from_ref(&value)))?;
    text_of(alloc, again.items().first().context("no datum")?)
}

/// Adds a variable that is not declared yet, an array and a variable with a number, and gives the first one a number. Gives what stood
/// there before, as it is read and as it is given back, what the cells hold then, and what another store holds at the first address.
pub fn cells(alloc: Global, line: &Line) -> Result<String> {
    let mut store = Store::new(alloc);
    let places = filled(alloc, &mut store, line.number(0)?)?;
    let first = places.as_slice().first().copied().context("no cell")?;
    let mut all = replaced(alloc, &mut store, first, line.number(1)?)?;
    add(&mut all, &listed(alloc, &store, places.as_slice())?)?;
    add(&mut all, &described(alloc, Store::new(alloc).get(first))?)?;
    Ok(all)
}

// The addresses of the cells that are added.
fn filled(alloc: Global, store: &mut Store, number: i64) -> Result<Vec<Address>> {
    let mut places = Vec::new(alloc);
    made(push(&mut places, made(store.add(Cell::Variable(None)))?))?;
    made(push(&mut places, made(store.add(Cell::Arr(Buffer::new(alloc))))?))?;
    made(push(&mut places, made(store.add(variable(number)))?))?;
    Ok(places)
}

// Gives the variable at an address a number, and gives what stood there.
fn replaced(alloc: Global, store: &mut Store, at: Address, number: i64) -> Result<String> {
    match store.get(at) {
        Some(_) => exchanged(alloc, store, at, variable(number)),
        None => bail!("no cell"),
    }
}

// What the cells hold.
fn listed(alloc: Global, store: &Store, places: &[Address]) -> Result<String> {
    let mut all = String::new(alloc);
    for place in places.iter() {
        add(&mut all, &described(alloc, store.get(*place))?)?;
    }
    Ok(all)
}

// Puts a cell in the place of another, and gives what stood there.
fn exchanged(alloc: Global, store: &mut Store, at: Address, cell: Cell) -> Result<String>
    requires { at < length store.old }
{
    let mut all = described(alloc, Some(store.cell(at)))?;
    let old = store.exchange(at, cell);
    add(&mut all, &described(alloc, Some(&old))?)?;
    Ok(all)
}

fn variable(number: i64) -> Cell {
    Cell::Variable(Some(Value::Num(number)))
}

fn described(alloc: Global, cell: Option<&Cell>) -> Result<String> {
    let text = match cell {
        Some(Cell::Variable(Some(Value::Num(number)))) => format!(in alloc; "{number}")?,
        Some(Cell::Variable(_)) => String::from_str(alloc, "undeclared")?,
        Some(Cell::Arr(_)) => String::from_str(alloc, "array")?,
        Some(_) => String::from_str(alloc, "cell")?,
        None => String::from_str(alloc, "none")?,
    };
    Ok(text)
}

/// Gives variables numbers in turn, and says what each name then has.
pub fn globals(alloc: Global, line: &Line) -> Result<String> {
    let mut globals = Globals::new(alloc);
    for (place, name) in line.arguments().iter().enumerate() {
        let name = made(Text::from_str(alloc, name.as_str().context("no name")?))?;
        made(globals.assign(&name, Value::Num(i64::try_from(place)?)))?;
    }
    let mut all = String::new(alloc);
    for name in line.arguments().iter() {
        let name = made(Text::from_str(alloc, name.as_str().context("no name")?))?;
        add(&mut all, &found(alloc, globals.find(&name))?)?;
    }
    let other = made(Text::from_str(alloc, "other"))?;
    add(&mut all, &found(alloc, globals.find(&other))?)?;
    Ok(all)
}

fn found(alloc: Global, value: Option<&Value>) -> Result<String> {
    let text = match value {
        Some(Value::Num(number)) => format!(in alloc; "{number}")?,
        Some(_) => String::from_str(alloc, "value")?,
        None => String::from_str(alloc, "none")?,
    };
    Ok(text)
}
