//! A door that is closed, and one in memory.

ghost use Rattle.std.specs.Prelude.{◌≡◌, ◌≤◌, length, None, true, false, IfOk, OnOk};

use crate::arguments::{failing, list, piece};
use anyhow::{Context, Result, bail, ensure};
use mt_outside::{Awaits, ClosedDoor, Door, MemoryDoor};
use mt_tree::{Buffer, NoMemory, push};
use rows::{Line, made, quoted};
use std::alloc::Global;
use std::str;

/// Opens a closed door at a port.
pub fn door(alloc: Global, line: &Line) -> Result<String> {
    let port = u16::try_from(line.number(0)?)?;
    let mut door = ClosedDoor::new();
    let opened = door.open(port);
    Ok(format!(in alloc; "{opened:?}")?)
}

/// Opens a door on which texts come in, accepts three times, writes a text on each connection, and says what went out on the first two.
pub fn memory_door(alloc: Global, line: &Line) -> Result<String> {
    let mut door = closed_door(alloc, line)?;
    let opened = door.open(80);
    if opened.is_ok() {
        return visits(alloc, &mut door, line.text(3)?.as_bytes());
    }
    Ok(format!(in alloc; "{opened:?}")?)
}

// A door that was not opened, with at least two connections.
fn closed_door(alloc: Global, line: &Line) -> Result<MemoryDoor>
    ensures port { IfOk result (λ door. ⟦<MemoryDoor as Door>⟧.asked_port door ≡ None) }
    ensures closed { IfOk result (λ door. ⟦<MemoryDoor as Door>⟧.is_open door ≡ false) }
    ensures two { IfOk result (λ door. 2 ≤ length (⟦<MemoryDoor as Awaits>⟧.awaited door)) }
{
    let piece = piece(line, 0)?;
    let failing = failing(alloc, line, 1)?;
    let incoming = incoming(alloc, line, 2)?;
    match MemoryDoor::new(alloc, incoming, failing, piece) {
        Ok(door) => Ok(door),
        Err(NoMemory) => bail!("no memory"),
    }
}

fn visits(alloc: Global, door: &mut MemoryDoor, answer: &[u8]) -> Result<String>
    requires listens { ⟦<MemoryDoor as Door>⟧.listens door.old ≡ true }
    requires closed { ⟦<MemoryDoor as Door>⟧.is_open door.old ≡ false }
    requires two { 2 ≤ length (⟦<MemoryDoor as Awaits>⟧.awaited door.old) }
{
    let first = visit(alloc, door, answer)?;
    let second = visit(alloc, door, answer)?;
    let third = visit(alloc, door, answer)?;
    let out = outgoing(alloc, door)?;
    Ok(format!(in alloc; "{first}, {second}, {third}, {out}")?)
}

// What went out on the first two connections.
fn outgoing(alloc: Global, door: &MemoryDoor) -> Result<String>
    requires { 2 ≤ length (⟦<MemoryDoor as Awaits>⟧.awaited door.now) }
{
    let first = quoted(alloc, str::from_utf8(door.outgoing(0))?)?;
    let second = quoted(alloc, str::from_utf8(door.outgoing(1))?)?;
    Ok(format!(in alloc; "{first} {second}")?)
}

// The bytes that come in on each connection, of which there are at least two.
fn incoming(alloc: Global, line: &Line, at: usize) -> Result<Vec<Buffer<u8>>>
    ensures { IfOk result (λ connections. 2 ≤ length connections.items) }
{
    let mut connections = Vec::new(alloc);
    for item in list(line, at)? {
        let bytes = item.as_str().context("no text")?.as_bytes();
        let bytes = Buffer::from_vec(Vec::from_slice(alloc, bytes)?);
        made(push(&mut connections, bytes))?;
    }
    ensure!(connections.len() >= 2, "no two connections");
    Ok(connections)
}

// Accepts a connection, reads twice at most 4 bytes of it, writes, and closes it.
fn visit(alloc: Global, door: &mut MemoryDoor, answer: &[u8]) -> Result<String>
    requires listens { ⟦<MemoryDoor as Door>⟧.listens door.old ≡ true }
    requires closed { ⟦<MemoryDoor as Door>⟧.is_open door.old ≡ false }
    ensures listens { OnOk result (⟦<MemoryDoor as Door>⟧.listens door.new ≡ true) }
    ensures closed { OnOk result (⟦<MemoryDoor as Door>⟧.is_open door.new ≡ false) }
    ensures awaited { OnOk result (⟦<MemoryDoor as Awaits>⟧.awaited door.new ≡ ⟦<MemoryDoor as Awaits>⟧.awaited door.old) }
{
    let accepted = door.accept();
    if accepted.is_ok() {
        return exchange(alloc, door, answer);
    }
    Ok(format!(in alloc; "{accepted:?}")?)
}

fn exchange(alloc: Global, door: &mut MemoryDoor, answer: &[u8]) -> Result<String>
    requires { ⟦<MemoryDoor as Door>⟧.is_open door.old ≡ true }
    ensures listens { ⟦<MemoryDoor as Door>⟧.listens door.new ≡ ⟦<MemoryDoor as Door>⟧.listens door.old }
    ensures closed { OnOk result (⟦<MemoryDoor as Door>⟧.is_open door.new ≡ false) }
    ensures awaited { ⟦<MemoryDoor as Awaits>⟧.awaited door.new ≡ ⟦<MemoryDoor as Awaits>⟧.awaited door.old }
{
    let first = part(alloc, door)?;
    let second = part(alloc, door)?;
    let written = door.write(answer);
    door.close();
    Ok(format!(in alloc; "{first} {second} {written:?}")?)
}

fn part(alloc: Global, door: &mut MemoryDoor) -> Result<String>
    requires { ⟦<MemoryDoor as Door>⟧.is_open door.old ≡ true }
    ensures listens { ⟦<MemoryDoor as Door>⟧.listens door.new ≡ ⟦<MemoryDoor as Door>⟧.listens door.old }
    ensures open { ⟦<MemoryDoor as Door>⟧.is_open door.new ≡ true }
    ensures awaited { ⟦<MemoryDoor as Awaits>⟧.awaited door.new ≡ ⟦<MemoryDoor as Awaits>⟧.awaited door.old }
{
    let mut into = [0u8; 4];
    match door.read(&mut into) {
        Ok(count) => quoted(alloc, str::from_utf8(&into[..count])?),
        Err(fault) => Ok(format!(in alloc; "{fault:?}")?),
    }
}
