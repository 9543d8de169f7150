ghost use Rattle.std.specs.Prelude.{◌≡◌, ◌≢◌, ◌<◌, ◌↔◌, ◌-◌, [], None, Some, List, ℕ, true, false, take, min, IsSome, IfOk, IfSome, OnOk, OnErr, IsErr, IsErrOf, vec_len, length, Option, Bool};
ghost use Rattle.std.specs.Option.{ForNone, ForSome, option_map};
ghost use Rattle.std.specs.Io.{ReadsAtMost};
ghost use Rattle.mt_outside.specs.Cause.{HasCause, SendCause, HasCount, SendCount};
ghost use Rattle.mt_outside.specs.Calls.{fresh_plan, next_plan, FailsNext};
ghost use Rattle.mt_outside.specs.Message.{with_send, with_given, was_sent, sent_of, given_of, ended_of, is_end, Begins, GivesAll, IsFaithful, IsFaithfulOn};

use crate::alteration::Alteration;
use crate::alters::Alters;
use crate::calls::{Calls, raise};
use crate::fault::{Failed, SendFault};
use crate::fault_plan::{FaultPlan, PieceLimit};
use crate::message_store::MessageStore;
use crate::wire::{Slot, Wire};
use mt_tree::NoMemory;
use std::alloc::Global;

/// A wire in memory, which tells its messages. It gives what was sent, or what replaces it, altered and cut as it was told.
///
/// Each `take` gives at most `piece` bytes. A call of the wire fails exactly where its number, counted from 1 over `begin`,
/// `send` and `take`, is in `failing`. A wire on which nothing is altered, replaced or cut is faithful on every slot, whatever
/// calls were made: `alterations` says so. The time that a call takes doesn't grow with the number of messages.
#[derive(Drop)]
pub struct MemoryWire {
    mode: Option<bool>,
    store: MessageStore,
    calls: Calls,
    faults: u64,
    piece: usize,
    ghost positive: { 0 < piece },
    ghost idle: { ForNone mode (vec_len store.messages ≡ 0) },
}

impl FaultPlan for MemoryWire {
    ghost plan = { λ w. record { made = w.calls.made; failing = w.calls.failing.items } };
}

impl PieceLimit for MemoryWire {
    ghost piece_limit = { λ w. w.piece };
}

impl Alters for MemoryWire {
    ghost changes = { λ w. record { alterations = w.store.alterations.items; replacements = w.store.replacements.items; cuts = w.store.cuts.items } };
}

impl MemoryWire {
    ghost use Rattle.mt_outside.specs.Arriving.{arriving, no_changes, with_cut, with_replacement};
    ghost use Rattle.mt_outside.specs.declared.wire.Slot.{Slot};

    /// A wire that was not begun and that no call was made on. Takes no memory.
    ///
    /// `alterations` says which bytes are to arrive as others, `failing` lists the numbers, from 1, of the calls that are to
    /// fail, in any order, and `piece` is the most bytes that one `take` gives, at least 1. The wire keeps `alloc` to grow by.
    pub fn new(
        alloc: Global,
        alterations: Vec<Alteration>,
        failing: Vec<u64>,
        piece: usize,
    ) -> MemoryWire
        requires { 0 < piece }
        ensures mode { ⟦<MemoryWire as Wire>⟧.mode result ≡ None }
        ensures messages { ⟦<MemoryWire as Wire>⟧.messages result ≡ Some [] }
        ensures faults { ⟦<MemoryWire as Wire>⟧.faults result ≡ 0 }
        ensures plan { ⟦<MemoryWire as FaultPlan>⟧.plan result ≡ fresh_plan failing.items }
        ensures piece { ⟦<MemoryWire as PieceLimit>⟧.piece_limit result ≡ piece }
        ensures changes { ⟦<MemoryWire as Alters>⟧.changes result ≡ record { alterations = alterations.items; replacements = []; cuts = [] } }
    {
        MemoryWire {
            mode: None,
            store: MessageStore::new(alloc, alterations),
            calls: Calls { made: 0, failing },
            faults: 0,
            piece,
        }
    }

    /// The alterations that it was made with. Takes no memory.
    ///
    /// Whatever calls were made, each message gives what was sent as these alter it, and as it is replaced and cut. A wire on
    /// which nothing is altered, replaced or cut is faithful on every slot.
    pub fn alterations(&self) -> &[Alteration]
        ensures value { (⟦<MemoryWire as Alters>⟧.changes self.now).alterations ≡ result.now }
        ensures arriving { IfSome (⟦<MemoryWire as Wire>⟧.messages self.now) (GivesAll (arriving (⟦<MemoryWire as Alters>⟧.changes self.now))) }
        ensures faithful { ⟦<MemoryWire as Alters>⟧.changes self.now ≡ no_changes → IfSome (⟦<MemoryWire as Wire>⟧.messages self.now) IsFaithful }
        ensures every_slot { ⟦<MemoryWire as Alters>⟧.changes self.now ≡ no_changes
            → IfSome (⟦<MemoryWire as Wire>⟧.messages self.now) (λ ms. (slot : Slot) → IsFaithfulOn slot ms) }
    {
        self.store.alterations.as_slice()
    }

    /// Whether a message was sent into this slot. Takes no memory.
    pub fn was_sent(&self, slot: Slot) -> bool
        ensures { IfSome (⟦<MemoryWire as Wire>⟧.messages self.now) (λ ms. result ≡ was_sent slot ms) }
    {
        self.store.was_sent(slot)
    }

    /// Cuts a slot, of which neither a byte nor the end was given yet: it gives at most its first `length` bytes, and then its
    /// end, whether the message was sent already or is sent later. The last cut of a slot counts. Bytes are replaced and
    /// altered before they are cut.
    ///
    /// It is no call that may be told to fail, and isn't counted as one.
    ///
    /// # Errors
    /// `NoMemory`; nothing is cut then.
    pub fn cut(&mut self, slot: Slot, length: u64) -> Result<(), NoMemory>
        requires { ForSome (⟦<MemoryWire as Wire>⟧.messages self.old) (λ ms. (given_of slot ms ≡ []) × (ended_of slot ms ≡ false)) }
        ensures ok { OnOk result (⟦<MemoryWire as Alters>⟧.changes self.new ≡ with_cut slot length (⟦<MemoryWire as Alters>⟧.changes self.old)) }
        ensures err { OnErr result (⟦<MemoryWire as Alters>⟧.changes self.new ≡ ⟦<MemoryWire as Alters>⟧.changes self.old) }
        ensures messages { ⟦<MemoryWire as Wire>⟧.messages self.new ≡ ⟦<MemoryWire as Wire>⟧.messages self.old }
        ensures mode { ⟦<MemoryWire as Wire>⟧.mode self.new ≡ ⟦<MemoryWire as Wire>⟧.mode self.old }
        ensures faults { ⟦<MemoryWire as Wire>⟧.faults self.new ≡ ⟦<MemoryWire as Wire>⟧.faults self.old }
        ensures plan { ⟦<MemoryWire as FaultPlan>⟧.plan self.new ≡ ⟦<MemoryWire as FaultPlan>⟧.plan self.old }
        ensures piece { ⟦<MemoryWire as PieceLimit>⟧.piece_limit self.new ≡ ⟦<MemoryWire as PieceLimit>⟧.piece_limit self.old }
    {
        self.store.cut(slot, length)
    }

    /// Replaces what a slot gives, of which neither a byte nor the end was given yet: it gives these bytes, whatever was sent
    /// into it already or is sent later. The last replacement of a slot counts. Alterations and cuts apply to these bytes.
    ///
    /// It is no call that may be told to fail, and isn't counted as one.
    ///
    /// # Errors
    /// `NoMemory`; nothing is replaced then.
    pub fn replace(&mut self, slot: Slot, bytes: Vec<u8>) -> Result<(), NoMemory>
        requires { ForSome (⟦<MemoryWire as Wire>⟧.messages self.old) (λ ms. (given_of slot ms ≡ []) × (ended_of slot ms ≡ false)) }
        ensures ok { OnOk result (⟦<MemoryWire as Alters>⟧.changes self.new ≡ with_replacement slot bytes.items (⟦<MemoryWire as Alters>⟧.changes self.old)) }
        ensures err { OnErr result (⟦<MemoryWire as Alters>⟧.changes self.new ≡ ⟦<MemoryWire as Alters>⟧.changes self.old) }
        ensures messages { ⟦<MemoryWire as Wire>⟧.messages self.new ≡ ⟦<MemoryWire as Wire>⟧.messages self.old }
        ensures mode { ⟦<MemoryWire as Wire>⟧.mode self.new ≡ ⟦<MemoryWire as Wire>⟧.mode self.old }
        ensures faults { ⟦<MemoryWire as Wire>⟧.faults self.new ≡ ⟦<MemoryWire as Wire>⟧.faults self.old }
        ensures plan { ⟦<MemoryWire as FaultPlan>⟧.plan self.new ≡ ⟦<MemoryWire as FaultPlan>⟧.plan self.old }
        ensures piece { ⟦<MemoryWire as PieceLimit>⟧.piece_limit self.new ≡ ⟦<MemoryWire as PieceLimit>⟧.piece_limit self.old }
    {
        self.store.replace(slot, bytes)
    }
}

impl Wire for MemoryWire {
    ghost use Rattle.mt_outside.specs.Arriving.{arriving};
    ghost use Rattle.mt_outside.specs.Stored.{messages_of};

    ghost mode = { λ w. w.mode };

    ghost messages = { λ w. Some (messages_of w.store.messages.items) };

    ghost faults = { λ w. w.faults };

    /// Takes no memory. It goes on telling its messages, with loopback too.
    fn begin(&mut self, loopback: bool) -> Result<(), SendFault>
        requires { ⟦<MemoryWire as Wire>⟧.mode self.old ≡ None }
        ensures mode { ⟦<MemoryWire as Wire>⟧.mode self.new ≡ Some loopback }
        ensures lists { Begins loopback (⟦<MemoryWire as Wire>⟧.messages self.old) (⟦<MemoryWire as Wire>⟧.messages self.new) }
        ensures kept { ⟦<MemoryWire as Wire>⟧.messages self.new ≡ ⟦<MemoryWire as Wire>⟧.messages self.old }
        ensures empty_before { IfSome (⟦<MemoryWire as Wire>⟧.messages self.old) (λ ms. ms ≡ []) }
        ensures empty { IfSome (⟦<MemoryWire as Wire>⟧.messages self.new) (λ ms. ms ≡ []) }
        ensures cause { SendCause (⟦<MemoryWire as Wire>⟧.faults self.old) (⟦<MemoryWire as Wire>⟧.faults self.new) result }
        ensures counted { SendCount (⟦<MemoryWire as Wire>⟧.faults self.old) (⟦<MemoryWire as Wire>⟧.faults self.new) result }
        ensures exact { IsErrOf result SendFault.Failed ↔ FailsNext (⟦<MemoryWire as FaultPlan>⟧.plan self.old) }
        ensures no_memory { result ≢ Err SendFault.NoMemory }
        ensures plan { ⟦<MemoryWire as FaultPlan>⟧.plan self.new ≡ next_plan (⟦<MemoryWire as FaultPlan>⟧.plan self.old) }
        ensures piece { ⟦<MemoryWire as PieceLimit>⟧.piece_limit self.new ≡ ⟦<MemoryWire as PieceLimit>⟧.piece_limit self.old }
        ensures changes { ⟦<MemoryWire as Alters>⟧.changes self.new ≡ ⟦<MemoryWire as Alters>⟧.changes self.old }
    {
        self.mode = Some(loopback);
        if self.calls.next_fails() {
            raise(&mut self.faults);
            return Err(SendFault::Failed);
        }
        Ok(())
    }

    /// `Failed` comes exactly at the calls that are to fail, and `NoMemory` where there is no room for the message.
    fn send(&mut self, slot: Slot, bytes: &[u8]) -> Result<(), SendFault>
        requires begun { IsSome (⟦<MemoryWire as Wire>⟧.mode self.old) }
        requires unsent { ForSome (⟦<MemoryWire as Wire>⟧.messages self.old) (λ ms. was_sent slot ms ≡ false) }
        ensures mode { ⟦<MemoryWire as Wire>⟧.mode self.new ≡ ⟦<MemoryWire as Wire>⟧.mode self.old }
        ensures ok { OnOk result (⟦<MemoryWire as Wire>⟧.messages self.new ≡ option_map (with_send slot bytes.now) (⟦<MemoryWire as Wire>⟧.messages self.old)) }
        ensures err { OnErr result (⟦<MemoryWire as Wire>⟧.messages self.new ≡ ⟦<MemoryWire as Wire>⟧.messages self.old) }
        ensures cause { SendCause (⟦<MemoryWire as Wire>⟧.faults self.old) (⟦<MemoryWire as Wire>⟧.faults self.new) result }
        ensures counted { SendCount (⟦<MemoryWire as Wire>⟧.faults self.old) (⟦<MemoryWire as Wire>⟧.faults self.new) result }
        ensures exact { IsErrOf result SendFault.Failed ↔ FailsNext (⟦<MemoryWire as FaultPlan>⟧.plan self.old) }
        ensures plan { ⟦<MemoryWire as FaultPlan>⟧.plan self.new ≡ next_plan (⟦<MemoryWire as FaultPlan>⟧.plan self.old) }
        ensures piece { ⟦<MemoryWire as PieceLimit>⟧.piece_limit self.new ≡ ⟦<MemoryWire as PieceLimit>⟧.piece_limit self.old }
        ensures changes { ⟦<MemoryWire as Alters>⟧.changes self.new ≡ ⟦<MemoryWire as Alters>⟧.changes self.old }
    {
        if self.calls.next_fails() {
            raise(&mut self.faults);
            return Err(SendFault::Failed);
        }
        match self.store.send(slot, bytes) {
            Ok(()) => Ok(()),
            Err(NoMemory) => Err(SendFault::NoMemory),
        }
    }

    /// Gives as many of the bytes that are left as `into` and `piece` of `new` allow. `Failed` comes exactly at the calls that
    /// are to fail.
    fn take(&mut self, slot: Slot, into: &mut [u8]) -> Result<usize, Failed>
        requires begun { IsSome (⟦<MemoryWire as Wire>⟧.mode self.old) }
        requires sent { ForSome (⟦<MemoryWire as Wire>⟧.messages self.old) (λ ms. was_sent slot ms ≡ true) }
        ensures bound { ReadsAtMost result into.new }
        ensures mode { ⟦<MemoryWire as Wire>⟧.mode self.new ≡ ⟦<MemoryWire as Wire>⟧.mode self.old }
        ensures ok { IfOk result (λ n. ⟦<MemoryWire as Wire>⟧.messages self.new
            ≡ option_map (with_given slot (take n into.new) (is_end n into.new)) (⟦<MemoryWire as Wire>⟧.messages self.old)) }
        ensures err { OnErr result (⟦<MemoryWire as Wire>⟧.messages self.new ≡ ⟦<MemoryWire as Wire>⟧.messages self.old) }
        ensures over { IfOk result (λ n. IfSome (⟦<MemoryWire as Wire>⟧.messages self.old) (λ ms. ended_of slot ms ≡ true → n ≡ 0)) }
        ensures count { IfOk result (λ n. IfSome (⟦<MemoryWire as Wire>⟧.messages self.old) (λ ms.
            n ≡ min (min (⟦<MemoryWire as PieceLimit>⟧.piece_limit self.old) (length into.new)) (length (arriving (⟦<MemoryWire as Alters>⟧.changes self.old) slot (sent_of slot ms)) - length (given_of slot ms)))) }
        ensures arriving { IfSome (⟦<MemoryWire as Wire>⟧.messages self.new) (GivesAll (arriving (⟦<MemoryWire as Alters>⟧.changes self.new))) }
        ensures cause { HasCause (⟦<MemoryWire as Wire>⟧.faults self.old) (⟦<MemoryWire as Wire>⟧.faults self.new) result }
        ensures counted { HasCount (⟦<MemoryWire as Wire>⟧.faults self.old) (⟦<MemoryWire as Wire>⟧.faults self.new) result }
        ensures exact { IsErr result ↔ FailsNext (⟦<MemoryWire as FaultPlan>⟧.plan self.old) }
        ensures plan { ⟦<MemoryWire as FaultPlan>⟧.plan self.new ≡ next_plan (⟦<MemoryWire as FaultPlan>⟧.plan self.old) }
        ensures piece { ⟦<MemoryWire as PieceLimit>⟧.piece_limit self.new ≡ ⟦<MemoryWire as PieceLimit>⟧.piece_limit self.old }
        ensures changes { ⟦<MemoryWire as Alters>⟧.changes self.new ≡ ⟦<MemoryWire as Alters>⟧.changes self.old }
    {
        if self.calls.next_fails() {
            raise(&mut self.faults);
            return Err(Failed);
        }
        Ok(self.store.give(slot, into, self.piece))
    }
}
