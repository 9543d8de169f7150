//! A wire in memory.

ghost use Rattle.std.specs.Prelude.{◌≡◌, [], IsSome, IfOk, None, Some, true};
ghost use Rattle.std.specs.Option.{ForSome};
ghost use Rattle.mt_outside.specs.Message.{was_sent};

use crate::arguments::{alterations, failing, piece};
use anyhow::Result;
use mt_outside::{MemoryWire, Slot, Taken, Wire, take_slot};
use rows::{Line, quoted};
use std::alloc::Global;
use std::str;

/// Begins a wire, sends a reply over it, once more where that failed, and takes it: first so many bytes, and then the rest.
pub fn wire(alloc: Global, line: &Line) -> Result<String> {
    let mut wire = altering_wire(alloc, line)?;
    let altered = wire.alterations().len();
    let begun = wire.begin(false);
    let sent = sent_or_again(alloc, &mut wire, line)?;
    Ok(format!(in alloc; "{altered} altered, {begun:?} {sent}")?)
}

fn altering_wire(alloc: Global, line: &Line) -> Result<MemoryWire>
    ensures mode { IfOk result (λ wire. ⟦<MemoryWire as Wire>⟧.mode wire ≡ None) }
    ensures messages { IfOk result (λ wire. ⟦<MemoryWire as Wire>⟧.messages wire ≡ Some []) }
{
    let piece = piece(line, 0)?;
    let alterations = alterations(alloc, line, 2)?;
    let failing = failing(alloc, line, 1)?;
    Ok(MemoryWire::new(alloc, alterations, failing, piece))
}

// Sends the reply, once more where that failed, and takes it.
fn sent_or_again(alloc: Global, wire: &mut MemoryWire, line: &Line) -> Result<String>
    requires begun { IsSome (⟦<MemoryWire as Wire>⟧.mode wire.old) }
    requires empty { ⟦<MemoryWire as Wire>⟧.messages wire.old ≡ Some [] }
{
    let bytes = line.text(3)?.as_bytes();
    let room = usize::try_from(line.number(4)?)?;
    let sent = wire.send(reply(), bytes);
    if sent.is_ok() {
        return arrived(alloc, wire, room);
    }
    let again = sent_once(alloc, wire, bytes, room)?;
    Ok(format!(in alloc; "{sent:?} {again}")?)
}

/// Begins a wire, replaces and cuts what a reply is to give, sends it and takes it.
pub fn changed(alloc: Global, line: &Line) -> Result<String> {
    let alterations = alterations(alloc, line, 0)?;
    let mut wire = MemoryWire::new(alloc, alterations, Vec::new(alloc), 4096);
    let begun = wire.begin(false);
    let changed = replaced_and_cut(alloc, &mut wire, line)?;
    let sent = sent_once(alloc, &mut wire, line.text(3)?.as_bytes(), 100)?;
    Ok(format!(in alloc; "{begun:?} {changed} {sent}")?)
}

fn replaced_and_cut(alloc: Global, wire: &mut MemoryWire, line: &Line) -> Result<String>
    requires empty { ⟦<MemoryWire as Wire>⟧.messages wire.old ≡ Some [] }
    ensures mode { ⟦<MemoryWire as Wire>⟧.mode wire.new ≡ ⟦<MemoryWire as Wire>⟧.mode wire.old }
    ensures empty { ⟦<MemoryWire as Wire>⟧.messages wire.new ≡ ⟦<MemoryWire as Wire>⟧.messages wire.old }
{
    let length = u64::try_from(line.number(2)?)?;
    let replacement = line.bytes(alloc, 1)?;
    let replaced = wire.replace(reply(), replacement);
    let cut = wire.cut(reply(), length);
    Ok(format!(in alloc; "{replaced:?} {cut:?}")?)
}

// Sends the reply, and takes it where that succeeded.
fn sent_once(alloc: Global, wire: &mut MemoryWire, bytes: &[u8], room: usize) -> Result<String>
    requires begun { IsSome (⟦<MemoryWire as Wire>⟧.mode wire.old) }
    requires empty { ⟦<MemoryWire as Wire>⟧.messages wire.old ≡ Some [] }
{
    let sent = wire.send(reply(), bytes);
    if sent.is_ok() {
        return arrived(alloc, wire, room);
    }
    Ok(format!(in alloc; "{sent:?}")?)
}

fn reply() -> Slot
    ensures { result ≡ record { client = 1; message = 1; reply = true } }
{
    Slot {
        client: 1,
        message: 1,
        reply: true,
    }
}

// The reply that was sent, behind the answer of the call that sent it.
fn arrived(alloc: Global, wire: &mut MemoryWire, room: usize) -> Result<String>
    requires begun { IsSome (⟦<MemoryWire as Wire>⟧.mode wire.old) }
    requires sent { ForSome (⟦<MemoryWire as Wire>⟧.messages wire.old) (λ ms. was_sent (record { client = 1; message = 1; reply = true }) ms ≡ true) }
{
    let taken = taken(alloc, wire, reply(), room)?;
    Ok(format!(in alloc; "Ok(()) {taken}")?)
}

// So many bytes of a message and then the rest, or at most 8 bytes in one call where the first were not given.
fn taken(alloc: Global, wire: &mut MemoryWire, slot: Slot, room: usize) -> Result<String>
    requires begun { IsSome (⟦<MemoryWire as Wire>⟧.mode wire.old) }
    requires sent { ForSome (⟦<MemoryWire as Wire>⟧.messages wire.old) (λ ms. was_sent slot ms ≡ true) }
{
    match take_slot(alloc, wire, slot, room) {
        Ok(first) => {
            let first = described(alloc, &first)?;
            let rest = rest(alloc, wire, slot)?;
            Ok(format!(in alloc; "{first} {rest}")?)
        }
        Err(fault) => {
            let part = part(alloc, wire, slot)?;
            Ok(format!(in alloc; "{fault:?} {part}")?)
        }
    }
}

fn rest(alloc: Global, wire: &mut MemoryWire, slot: Slot) -> Result<String>
    requires begun { IsSome (⟦<MemoryWire as Wire>⟧.mode wire.old) }
    requires sent { ForSome (⟦<MemoryWire as Wire>⟧.messages wire.old) (λ ms. was_sent slot ms ≡ true) }
{
    match take_slot(alloc, wire, slot, 100) {
        Ok(rest) => described(alloc, &rest),
        Err(fault) => Ok(format!(in alloc; "{fault:?}")?),
    }
}

fn part(alloc: Global, wire: &mut MemoryWire, slot: Slot) -> Result<String>
    requires begun { IsSome (⟦<MemoryWire as Wire>⟧.mode wire.old) }
    requires sent { ForSome (⟦<MemoryWire as Wire>⟧.messages wire.old) (λ ms. was_sent slot ms ≡ true) }
{
    let mut into = [0u8; 8];
    match wire.take(slot, &mut into) {
        Ok(count) => quoted(alloc, str::from_utf8(&into[..count])?),
        Err(fault) => Ok(format!(in alloc; "{fault:?}")?),
    }
}

fn described(alloc: Global, taken: &Taken) -> Result<String> {
    let text = quoted(alloc, str::from_utf8(&taken.bytes)?)?;
    let ended = taken.ended;
    Ok(format!(in alloc; "{text} ended {ended}")?)
}
