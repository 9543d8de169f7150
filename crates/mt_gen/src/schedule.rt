ghost use Rattle.std.specs.Prelude.{◌≡◌, ◌≤◌, ◌<◌, ◌++◌, map, reverse, IfOk, OnOk, string_bytes};
ghost use Rattle.std.specs.List.{flat_map};
ghost use Rattle.mt_gen.specs.Schedule.{lines, load, serve, deliver, up_to, turn, opening, schedule_text};

use crate::lines::{write_click, write_deliver, write_load, write_serve};
use mt_tree::NoMemory;
use std::alloc::Global;

/// The whole schedule of `n` clicks.
pub fn write_schedule(alloc: Global, n: u32) -> Result<String, NoMemory>
    requires some { 1 ≤ n }
    requires few { n ≤ 6000 }
    ensures { IfOk result (λ text. string_bytes text ≡ schedule_text n) }
{
    let clients = n.min(64);
    let mut text = String::new(alloc);
    write_opening(clients, &mut text)?;
    write_turns(clients, n, &mut text)?;
    Ok(text)
}

// Every client gets its page.
fn write_opening(clients: u32, into: &mut String) -> Result<(), NoMemory>
    requires { clients ≤ 64 }
    ensures { OnOk result (string_bytes into.new ≡ string_bytes into.old ++ lines (opening clients)) }
{
    write_loads(clients, into)?;
    write_serves(clients, into)?;
    write_deliveries(clients, into)
}

fn write_loads(clients: u32, into: &mut String) -> Result<(), NoMemory>
    requires { clients ≤ 64 }
    ensures { OnOk result (string_bytes into.new ≡ string_bytes into.old ++ lines (map load (up_to clients))) }
{
    for client in 1..clients + 1 {
        write_load(client, into)?;
    }
    Ok(())
}

// From the last client to the first.
fn write_serves(clients: u32, into: &mut String) -> Result<(), NoMemory>
    requires { clients ≤ 64 }
    ensures { OnOk result (string_bytes into.new ≡ string_bytes into.old ++ lines (map (λ k. serve k 1) (reverse (up_to clients)))) }
{
    for client in (1..clients + 1).rev() {
        write_serve(client, 1, into)?;
    }
    Ok(())
}

fn write_deliveries(clients: u32, into: &mut String) -> Result<(), NoMemory>
    requires { clients ≤ 64 }
    ensures { OnOk result (string_bytes into.new ≡ string_bytes into.old ++ lines (map (λ k. deliver k 1) (up_to clients))) }
{
    for client in 1..clients + 1 {
        write_deliver(client, 1, into)?;
    }
    Ok(())
}

fn write_turns(clients: u32, n: u32, into: &mut String) -> Result<(), NoMemory>
    requires some { 0 < clients }
    requires few { n ≤ 6000 }
    ensures { OnOk result (string_bytes into.new ≡ string_bytes into.old ++ lines (flat_map (turn clients) (up_to n))) }
{
    for click in 1..n + 1 {
        write_turn(clients, click, into)?;
    }
    Ok(())
}

// One click, and what becomes of its message: the clients take turns, and each of them loaded its page by message 1.
fn write_turn(clients: u32, click: u32, into: &mut String) -> Result<(), NoMemory>
    requires some { 0 < clients }
    requires first { 1 ≤ click }
    requires few { click ≤ 6000 }
    ensures { OnOk result (string_bytes into.new ≡ string_bytes into.old ++ lines (turn clients click)) }
{
    let client = (click - 1) % clients + 1;
    let message = 2 + (click - 1) / clients;
    write_click(client, into)?;
    write_serve(client, message, into)?;
    write_deliver(client, message, into)
}
