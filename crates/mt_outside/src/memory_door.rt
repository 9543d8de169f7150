ghost use Rattle.std.specs.Prelude.{◌≡◌, ◌<◌, ◌≤◌, ◌+◌, ◌-◌, ◌↔◌, ◌⊎◌, ◌++◌, ◌∷◌, [], None, Some, List, ℕ, Bool, true, false, take, drop, map, min, slice_index_or, IfOk, IfSome, OnOk, OnErr, IsErr, IsErrOf, vec_len, length, Option, if◌then◌else◌};
ghost use Rattle.std.specs.Option.{option_map};
ghost use Rattle.std.specs.Result.{is_ok};
ghost use Rattle.std.specs.Io.{ReadsAtMost, WritesAtMost};
ghost use Rattle.mt_outside.specs.Cause.{HasCause, SendCause, HasCount, SendCount};
ghost use Rattle.mt_outside.specs.Calls.{fresh_plan, next_plan, FailsNext};
ghost use Rattle.mt_outside.specs.Files.{ReadsPart};
ghost use Rattle.mt_outside.specs.Message.{is_end};
ghost use Rattle.mt_outside.specs.Connection.{fresh, read_more, written_more, on_last, OfLast, Accepts};
ghost use Rattle.mt_outside.specs.Connections.{connection_of, fresh_of, incoming_of, accepted_of};

use crate::awaits::Awaits;
use crate::calls::{Calls, raise};
use crate::door::Door;
use crate::fault::{Failed, SendFault};
use crate::fault_plan::{FaultPlan, PieceLimit};
use crate::stored_connection::StoredConnection;
use mt_tree::{Buffer, NoMemory, push};
use std::alloc::Global;

/// A door in memory, which tells its connections. They come in the order in which it was given them.
///
/// Each read gives and each write takes at most `piece` bytes. A call fails exactly where its number, counted from 1 over
/// `open`, `accept`, `read` and `write` together, is in `failing`, and `accept` also past the last connection.
#[derive(Drop)]
pub struct MemoryDoor {
    port: Option<u16>,
    listens: bool,
    is_open: bool,
    accepted: usize,
    connections: Vec<StoredConnection>,
    calls: Calls,
    faults: u64,
    connection_faults: u64,
    piece: usize,
    ghost positive: { 0 < piece },
    ghost within: { accepted ≤ vec_len connections },
    ghost some: { is_open ≡ true → 0 < accepted },
    ghost awaiting: { drop accepted (map connection_of connections.items) ≡ drop accepted (map fresh_of connections.items) },
}

impl FaultPlan for MemoryDoor {
    ghost plan = { λ d. record { made = d.calls.made; failing = d.calls.failing.items } };
}

impl PieceLimit for MemoryDoor {
    ghost piece_limit = { λ d. d.piece };
}

impl Awaits for MemoryDoor {
    ghost awaited = { λ d. incoming_of d.connections.items };
}

impl MemoryDoor {
    ghost use Rattle.mt_outside.specs.Connections.{outgoing_at};

    /// A door of which no port was asked yet. `connections` has the bytes that come in on each connection, `failing` lists the
    /// numbers, from 1, of the calls that are to fail, in any order, and `piece` is the most bytes of one call, at least 1.
    ///
    /// # Errors
    /// `NoMemory`: it makes the room for what goes out on each connection.
    pub fn new(
        alloc: Global,
        connections: Vec<Buffer<u8>>,
        failing: Vec<u64>,
        piece: usize,
    ) -> Result<MemoryDoor, NoMemory>
        requires { 0 < piece }
        ensures port { IfOk result (λ door. ⟦<MemoryDoor as Door>⟧.asked_port door ≡ None) }
        ensures listens { IfOk result (λ door. ⟦<MemoryDoor as Door>⟧.listens door ≡ false) }
        ensures is_open { IfOk result (λ door. ⟦<MemoryDoor as Door>⟧.is_open door ≡ false) }
        ensures accepted { IfOk result (λ door. ⟦<MemoryDoor as Door>⟧.accepted door ≡ 0) }
        ensures connections { IfOk result (λ door. ⟦<MemoryDoor as Door>⟧.connections door ≡ Some []) }
        ensures faults { IfOk result (λ door. ⟦<MemoryDoor as Door>⟧.faults door ≡ 0) }
        ensures others { IfOk result (λ door. ⟦<MemoryDoor as Door>⟧.connection_faults door ≡ 0) }
        ensures plan { IfOk result (λ door. ⟦<MemoryDoor as FaultPlan>⟧.plan door ≡ fresh_plan failing.items) }
        ensures piece { IfOk result (λ door. ⟦<MemoryDoor as PieceLimit>⟧.piece_limit door ≡ piece) }
        ensures awaited { IfOk result (λ door. ⟦<MemoryDoor as Awaits>⟧.awaited door ≡ connections.items) }
    {
        Ok(MemoryDoor {
            port: None,
            listens: false,
            is_open: false,
            accepted: 0,
            connections: fresh_connections(alloc, connections)?,
            calls: Calls { made: 0, failing },
            faults: 0,
            connection_faults: 0,
            piece,
        })
    }

    /// The bytes that went out on a connection, counted from 0 among those that the door was made with. Takes no memory.
    ///
    /// There is such a connection. Nothing went out on one that wasn't accepted.
    pub fn outgoing(&self, connection: usize) -> &[u8]
        requires { connection < length (⟦<MemoryDoor as Awaits>⟧.awaited self.now) }
        ensures { IfSome (⟦<MemoryDoor as Door>⟧.connections self.now) (λ ts. result.now ≡ outgoing_at connection ts) }
    {
        self.connections[connection].outgoing.as_slice()
    }
}

// Connections on which nothing was read or written.
fn fresh_connections(
    alloc: Global,
    mut incoming: Vec<Buffer<u8>>,
) -> Result<Vec<StoredConnection>, NoMemory>
    ensures incoming { IfOk result (λ made. incoming_of made.items ≡ incoming.items) }
    ensures fresh { IfOk result (λ made. map connection_of made.items ≡ map fresh_of made.items) }
{
    let mut made = Vec::new(alloc);
    incoming.reverse();
    'connections: while let Some(bytes) = incoming.pop() {
        push(&mut made, StoredConnection::new(alloc, bytes))?;
    }
    Ok(made)
}

impl Door for MemoryDoor {
    ghost asked_port = { λ d. d.port };

    ghost listens = { λ d. d.listens };

    ghost is_open = { λ d. d.is_open };

    ghost accepted = { λ d. d.accepted };

    ghost connections = { λ d. Some (accepted_of d.accepted d.connections.items) };

    ghost faults = { λ d. d.faults };

    ghost connection_faults = { λ d. d.connection_faults };

    /// `Failed` comes exactly at the calls that are to fail. Takes no memory.
    fn open(&mut self, port: u16) -> Result<(), Failed>
        requires { ⟦<MemoryDoor as Door>⟧.asked_port self.old ≡ None }
        ensures port { ⟦<MemoryDoor as Door>⟧.asked_port self.new ≡ Some port }
        ensures listens { ⟦<MemoryDoor as Door>⟧.listens self.new ≡ is_ok result }
        ensures is_open { ⟦<MemoryDoor as Door>⟧.is_open self.new ≡ ⟦<MemoryDoor as Door>⟧.is_open self.old }
        ensures accepted { ⟦<MemoryDoor as Door>⟧.accepted self.new ≡ ⟦<MemoryDoor as Door>⟧.accepted self.old }
        ensures connections { ⟦<MemoryDoor as Door>⟧.connections self.new ≡ ⟦<MemoryDoor as Door>⟧.connections self.old }
        ensures cause { HasCause (⟦<MemoryDoor as Door>⟧.faults self.old) (⟦<MemoryDoor as Door>⟧.faults self.new) result }
        ensures counted { HasCount (⟦<MemoryDoor as Door>⟧.faults self.old) (⟦<MemoryDoor as Door>⟧.faults self.new) result }
        ensures others { ⟦<MemoryDoor as Door>⟧.connection_faults self.new ≡ ⟦<MemoryDoor as Door>⟧.connection_faults self.old }
        ensures exact { IsErr result ↔ FailsNext (⟦<MemoryDoor as FaultPlan>⟧.plan self.old) }
        ensures plan { ⟦<MemoryDoor as FaultPlan>⟧.plan self.new ≡ next_plan (⟦<MemoryDoor as FaultPlan>⟧.plan self.old) }
        ensures piece { ⟦<MemoryDoor as PieceLimit>⟧.piece_limit self.new ≡ ⟦<MemoryDoor as PieceLimit>⟧.piece_limit self.old }
        ensures awaited { ⟦<MemoryDoor as Awaits>⟧.awaited self.new ≡ ⟦<MemoryDoor as Awaits>⟧.awaited self.old }
    {
        self.port = Some(port);
        if self.calls.next_fails() {
            self.listens = false;
            raise(&mut self.faults);
            return Err(Failed);
        }
        self.listens = true;
        Ok(())
    }

    /// `Failed` comes exactly at the calls that are to fail and past the last connection. Takes no memory.
    fn accept(&mut self) -> Result<(), Failed>
        requires listens { ⟦<MemoryDoor as Door>⟧.listens self.old ≡ true }
        requires closed { ⟦<MemoryDoor as Door>⟧.is_open self.old ≡ false }
        ensures port { ⟦<MemoryDoor as Door>⟧.asked_port self.new ≡ ⟦<MemoryDoor as Door>⟧.asked_port self.old }
        ensures listens { ⟦<MemoryDoor as Door>⟧.listens self.new ≡ ⟦<MemoryDoor as Door>⟧.listens self.old }
        ensures is_open { ⟦<MemoryDoor as Door>⟧.is_open self.new ≡ is_ok result }
        ensures accepted { ⟦<MemoryDoor as Door>⟧.accepted self.new ≡ (if is_ok result then ⟦<MemoryDoor as Door>⟧.accepted self.old + 1 else ⟦<MemoryDoor as Door>⟧.accepted self.old) }
        ensures ok { OnOk result (Accepts (⟦<MemoryDoor as Door>⟧.connections self.old) (⟦<MemoryDoor as Door>⟧.connections self.new)) }
        ensures next { OnOk result (⟦<MemoryDoor as Door>⟧.connections self.new
            ≡ option_map (λ ts. ts ++ fresh (slice_index_or (⟦<MemoryDoor as Awaits>⟧.awaited self.old) (⟦<MemoryDoor as Door>⟧.accepted self.old) []) ∷ []) (⟦<MemoryDoor as Door>⟧.connections self.old)) }
        ensures err { OnErr result (⟦<MemoryDoor as Door>⟧.connections self.new ≡ ⟦<MemoryDoor as Door>⟧.connections self.old) }
        ensures cause { HasCause (⟦<MemoryDoor as Door>⟧.faults self.old) (⟦<MemoryDoor as Door>⟧.faults self.new) result }
        ensures counted { HasCount (⟦<MemoryDoor as Door>⟧.faults self.old) (⟦<MemoryDoor as Door>⟧.faults self.new) result }
        ensures others { ⟦<MemoryDoor as Door>⟧.connection_faults self.new ≡ ⟦<MemoryDoor as Door>⟧.connection_faults self.old }
        ensures exact { IsErr result ↔ (FailsNext (⟦<MemoryDoor as FaultPlan>⟧.plan self.old)
            ⊎ (length (⟦<MemoryDoor as Awaits>⟧.awaited self.old) ≤ ⟦<MemoryDoor as Door>⟧.accepted self.old)) }
        ensures plan { ⟦<MemoryDoor as FaultPlan>⟧.plan self.new ≡ next_plan (⟦<MemoryDoor as FaultPlan>⟧.plan self.old) }
        ensures piece { ⟦<MemoryDoor as PieceLimit>⟧.piece_limit self.new ≡ ⟦<MemoryDoor as PieceLimit>⟧.piece_limit self.old }
        ensures awaited { ⟦<MemoryDoor as Awaits>⟧.awaited self.new ≡ ⟦<MemoryDoor as Awaits>⟧.awaited self.old }
    {
        if self.calls.next_fails() || self.accepted >= self.connections.len() {
            raise(&mut self.faults);
            return Err(Failed);
        }
        self.accepted += 1;
        self.is_open = true;
        Ok(())
    }

    /// Gives as many of the bytes that are left as `into` and `piece` of `new` allow. `Failed` comes exactly at the calls that
    /// are to fail. Takes no memory.
    fn read(&mut self, into: &mut [u8]) -> Result<usize, Failed>
        requires { ⟦<MemoryDoor as Door>⟧.is_open self.old ≡ true }
        ensures bound { ReadsAtMost result into.new }
        ensures port { ⟦<MemoryDoor as Door>⟧.asked_port self.new ≡ ⟦<MemoryDoor as Door>⟧.asked_port self.old }
        ensures listens { ⟦<MemoryDoor as Door>⟧.listens self.new ≡ ⟦<MemoryDoor as Door>⟧.listens self.old }
        ensures is_open { ⟦<MemoryDoor as Door>⟧.is_open self.new ≡ ⟦<MemoryDoor as Door>⟧.is_open self.old }
        ensures accepted { ⟦<MemoryDoor as Door>⟧.accepted self.new ≡ ⟦<MemoryDoor as Door>⟧.accepted self.old }
        ensures bytes { IfOk result (λ n. IfSome (⟦<MemoryDoor as Door>⟧.connections self.old) (OfLast (λ t. ReadsPart t.incoming t.given n into.new))) }
        ensures ok { IfOk result (λ n. ⟦<MemoryDoor as Door>⟧.connections self.new ≡ option_map (on_last (read_more n (is_end n into.new))) (⟦<MemoryDoor as Door>⟧.connections self.old)) }
        ensures count { IfOk result (λ n. IfSome (⟦<MemoryDoor as Door>⟧.connections self.old) (OfLast (λ t.
            n ≡ min (min (⟦<MemoryDoor as PieceLimit>⟧.piece_limit self.old) (length into.new)) (length t.incoming - t.given)))) }
        ensures err { OnErr result (⟦<MemoryDoor as Door>⟧.connections self.new ≡ ⟦<MemoryDoor as Door>⟧.connections self.old) }
        ensures cause { HasCause (⟦<MemoryDoor as Door>⟧.connection_faults self.old) (⟦<MemoryDoor as Door>⟧.connection_faults self.new) result }
        ensures counted { HasCount (⟦<MemoryDoor as Door>⟧.connection_faults self.old) (⟦<MemoryDoor as Door>⟧.connection_faults self.new) result }
        ensures others { ⟦<MemoryDoor as Door>⟧.faults self.new ≡ ⟦<MemoryDoor as Door>⟧.faults self.old }
        ensures exact { IsErr result ↔ FailsNext (⟦<MemoryDoor as FaultPlan>⟧.plan self.old) }
        ensures plan { ⟦<MemoryDoor as FaultPlan>⟧.plan self.new ≡ next_plan (⟦<MemoryDoor as FaultPlan>⟧.plan self.old) }
        ensures piece { ⟦<MemoryDoor as PieceLimit>⟧.piece_limit self.new ≡ ⟦<MemoryDoor as PieceLimit>⟧.piece_limit self.old }
        ensures awaited { ⟦<MemoryDoor as Awaits>⟧.awaited self.new ≡ ⟦<MemoryDoor as Awaits>⟧.awaited self.old }
    {
        if self.calls.next_fails() {
            raise(&mut self.connection_faults);
            return Err(Failed);
        }
        let connection = &mut self.connections[self.accepted - 1];
        Ok(connection.read(into, self.piece))
    }

    /// Takes as many bytes as `piece` of `new` allows. `Failed` comes exactly at the calls that are to fail, and `NoMemory`
    /// where there is no room for them.
    fn write(&mut self, piece: &[u8]) -> Result<usize, SendFault>
        requires { ⟦<MemoryDoor as Door>⟧.is_open self.old ≡ true }
        ensures bound { WritesAtMost result piece.now }
        ensures some { IfOk result (λ n. 0 < length piece.now → 0 < n) }
        ensures taken { IfOk result (λ n. n ≡ min (⟦<MemoryDoor as PieceLimit>⟧.piece_limit self.old) (length piece.now)) }
        ensures port { ⟦<MemoryDoor as Door>⟧.asked_port self.new ≡ ⟦<MemoryDoor as Door>⟧.asked_port self.old }
        ensures listens { ⟦<MemoryDoor as Door>⟧.listens self.new ≡ ⟦<MemoryDoor as Door>⟧.listens self.old }
        ensures is_open { ⟦<MemoryDoor as Door>⟧.is_open self.new ≡ ⟦<MemoryDoor as Door>⟧.is_open self.old }
        ensures accepted { ⟦<MemoryDoor as Door>⟧.accepted self.new ≡ ⟦<MemoryDoor as Door>⟧.accepted self.old }
        ensures ok { IfOk result (λ n. ⟦<MemoryDoor as Door>⟧.connections self.new ≡ option_map (on_last (written_more (take n piece.now))) (⟦<MemoryDoor as Door>⟧.connections self.old)) }
        ensures err { OnErr result (⟦<MemoryDoor as Door>⟧.connections self.new ≡ ⟦<MemoryDoor as Door>⟧.connections self.old) }
        ensures cause { SendCause (⟦<MemoryDoor as Door>⟧.connection_faults self.old) (⟦<MemoryDoor as Door>⟧.connection_faults self.new) result }
        ensures counted { SendCount (⟦<MemoryDoor as Door>⟧.connection_faults self.old) (⟦<MemoryDoor as Door>⟧.connection_faults self.new) result }
        ensures others { ⟦<MemoryDoor as Door>⟧.faults self.new ≡ ⟦<MemoryDoor as Door>⟧.faults self.old }
        ensures exact { IsErrOf result SendFault.Failed ↔ FailsNext (⟦<MemoryDoor as FaultPlan>⟧.plan self.old) }
        ensures plan { ⟦<MemoryDoor as FaultPlan>⟧.plan self.new ≡ next_plan (⟦<MemoryDoor as FaultPlan>⟧.plan self.old) }
        ensures piece { ⟦<MemoryDoor as PieceLimit>⟧.piece_limit self.new ≡ ⟦<MemoryDoor as PieceLimit>⟧.piece_limit self.old }
        ensures awaited { ⟦<MemoryDoor as Awaits>⟧.awaited self.new ≡ ⟦<MemoryDoor as Awaits>⟧.awaited self.old }
    {
        if self.calls.next_fails() {
            raise(&mut self.connection_faults);
            return Err(SendFault::Failed);
        }
        let count = self.piece.min(piece.len());
        let connection = &mut self.connections[self.accepted - 1];
        match connection.write(&piece[..count]) {
            Ok(()) => Ok(count),
            Err(NoMemory) => Err(SendFault::NoMemory),
        }
    }

    /// It isn't counted among the calls. Takes no memory.
    fn close(&mut self)
        requires { ⟦<MemoryDoor as Door>⟧.is_open self.old ≡ true }
        ensures port { ⟦<MemoryDoor as Door>⟧.asked_port self.new ≡ ⟦<MemoryDoor as Door>⟧.asked_port self.old }
        ensures listens { ⟦<MemoryDoor as Door>⟧.listens self.new ≡ ⟦<MemoryDoor as Door>⟧.listens self.old }
        ensures is_open { ⟦<MemoryDoor as Door>⟧.is_open self.new ≡ false }
        ensures accepted { ⟦<MemoryDoor as Door>⟧.accepted self.new ≡ ⟦<MemoryDoor as Door>⟧.accepted self.old }
        ensures connections { ⟦<MemoryDoor as Door>⟧.connections self.new ≡ ⟦<MemoryDoor as Door>⟧.connections self.old }
        ensures faults { ⟦<MemoryDoor as Door>⟧.faults self.new ≡ ⟦<MemoryDoor as Door>⟧.faults self.old }
        ensures others { ⟦<MemoryDoor as Door>⟧.connection_faults self.new ≡ ⟦<MemoryDoor as Door>⟧.connection_faults self.old }
        ensures plan { ⟦<MemoryDoor as FaultPlan>⟧.plan self.new ≡ ⟦<MemoryDoor as FaultPlan>⟧.plan self.old }
        ensures piece { ⟦<MemoryDoor as PieceLimit>⟧.piece_limit self.new ≡ ⟦<MemoryDoor as PieceLimit>⟧.piece_limit self.old }
        ensures awaited { ⟦<MemoryDoor as Awaits>⟧.awaited self.new ≡ ⟦<MemoryDoor as Awaits>⟧.awaited self.old }
    {
        self.is_open = false;
    }
}
