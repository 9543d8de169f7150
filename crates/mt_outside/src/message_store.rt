ghost use Rattle.std.specs.Prelude.{◌≡◌, ◌<◌, ◌≤◌, ◌-◌, ◌++◌, ◌∷◌, [], true, false, take, min, length, MatchOption, IfOk, OnOk, OnErr};
ghost use Rattle.mt_outside.specs.Message.{with_send, with_given, was_sent, sent_of, given_of, ended_of, is_end};
ghost use Rattle.mt_outside.specs.Arriving.{arriving, no_changes};
ghost use Rattle.mt_outside.specs.Stored.{messages_of, slots_of, are_distinct, place_in, to_give, arrivals};

use crate::alteration::{Alteration, Cut, Replacement};
use crate::arriving::{arrive, cut_of, replaced};
use crate::stored_message::StoredMessage;
use crate::wire::Slot;
use indexmap::IndexSet;
use mt_tree::{Buffer, NoMemory, push};
use std::alloc::Global;

/// The messages of a wire in memory, in the order of their sending, and what becomes of them on their way.
#[derive(Drop)]
pub struct MessageStore {
    alloc: Global,
    pub messages: Vec<StoredMessage>,
    // The slots of the messages, in their order: a table, so that a message is found without a walk over all of them.
    slots: IndexSet<Slot>,
    pub alterations: Vec<Alteration>,
    pub replacements: Vec<Replacement>,
    pub cuts: Vec<Cut>,
    ghost found: { slots.keys ≡ slots_of messages.items },
    ghost distinct: { are_distinct (slots_of messages.items) ≡ true },
    ghost gives: { to_give messages.items ≡ arrivals (arriving (record { alterations = alterations.items; replacements = replacements.items; cuts = cuts.items })) messages.items },
}

impl MessageStore {
    /// No messages, which these alterations await.
    pub fn new(alloc: Global, alterations: Vec<Alteration>) -> MessageStore
        ensures messages { result.messages.items ≡ [] }
        ensures alterations { result.alterations.items ≡ alterations.items }
        ensures replacements { result.replacements.items ≡ [] }
        ensures cuts { result.cuts.items ≡ [] }
    {
        MessageStore {
            alloc,
            messages: Vec::new(alloc),
            slots: IndexSet::new(alloc),
            alterations,
            replacements: Vec::new(alloc),
            cuts: Vec::new(alloc),
        }
    }

    // The place of the message of a slot.
    fn place_of(&self, slot: Slot) -> Option<usize>
        ensures { MatchOption result (was_sent slot (messages_of self.now.messages.items) ≡ false)
            (λ i. (i ≡ place_in slot self.now.messages.items) × (i < length self.now.messages.items)) }
    {
        self.slots.get_index_of(&slot)
    }

    /// Whether a message was sent into this slot.
    pub fn was_sent(&self, slot: Slot) -> bool
        ensures { result ≡ was_sent slot (messages_of self.now.messages.items) }
    {
        self.slots.contains(&slot)
    }

    /// Stores a message that is sent into a slot of which none was sent yet.
    pub fn send(&mut self, slot: Slot, bytes: &[u8]) -> Result<(), NoMemory>
        requires { was_sent slot (messages_of self.old.messages.items) ≡ false }
        ensures ok { OnOk result (messages_of self.new.messages.items ≡ with_send slot bytes.now (messages_of self.old.messages.items)) }
        ensures err { OnErr result (self.new.messages.items ≡ self.old.messages.items) }
        ensures alterations { self.new.alterations.items ≡ self.old.alterations.items }
        ensures replacements { self.new.replacements.items ≡ self.old.replacements.items }
        ensures cuts { self.new.cuts.items ≡ self.old.cuts.items }
    {
        let gives = self.arriving(slot, bytes)?;
        let sent = match Vec::from_slice(self.alloc, bytes) {
            Ok(sent) => sent,
            Err(_refused) => return Err(NoMemory),
        };
        self.add(StoredMessage {
            slot,
            sent,
            gives,
            at: 0,
            ended: false,
        })?;
        Ok(())
    }

    // What arrives of these bytes, sent into this slot.
    fn arriving(&self, slot: Slot, bytes: &[u8]) -> Result<Vec<u8>, NoMemory>
        ensures { IfOk result (λ made. made.items ≡ arriving (record { alterations = self.now.alterations.items; replacements = self.now.replacements.items; cuts = self.now.cuts.items }) slot bytes.now) }
    {
        let bytes = replaced(&self.replacements, slot, bytes);
        arrive(
            self.alloc,
            &self.alterations,
            cut_of(&self.cuts, slot),
            slot,
            bytes,
        )
    }

    // Puts a message last.
    fn add(&mut self, message: StoredMessage) -> Result<(), NoMemory>
        requires unsent { was_sent message.slot (messages_of self.old.messages.items) ≡ false }
        requires gives { message.gives.items ≡ arriving (record { alterations = self.old.alterations.items; replacements = self.old.replacements.items; cuts = self.old.cuts.items }) message.slot message.sent.items }
        ensures ok { OnOk result (self.new.messages.items ≡ self.old.messages.items ++ message ∷ []) }
        ensures err { OnErr result (self.new.messages.items ≡ self.old.messages.items) }
        ensures alterations { self.new.alterations.items ≡ self.old.alterations.items }
        ensures replacements { self.new.replacements.items ≡ self.old.replacements.items }
        ensures cuts { self.new.cuts.items ≡ self.old.cuts.items }
    {
        let count = self.messages.len();
        let slot = message.slot;
        push(&mut self.messages, message)?;
        match self.slots.insert(slot) {
            Ok(_added) => Ok(()),
            Err(_refused) => {
                self.messages.truncate(count);
                Err(NoMemory)
            }
        }
    }

    /// Gives the next bytes of a message that was sent, at most `piece` of them.
    pub fn give(&mut self, slot: Slot, into: &mut [u8], piece: usize) -> usize
        requires sent { was_sent slot (messages_of self.old.messages.items) ≡ true }
        requires piece { 0 < piece }
        ensures bound { result ≤ length into.new }
        ensures given { messages_of self.new.messages.items
            ≡ with_given slot (take result into.new) (is_end result into.new) (messages_of self.old.messages.items) }
        ensures over { ended_of slot (messages_of self.old.messages.items) ≡ true → result ≡ 0 }
        ensures count { result ≡ min (min piece (length into.new))
            (length (arriving (record { alterations = self.old.alterations.items; replacements = self.old.replacements.items; cuts = self.old.cuts.items }) slot (sent_of slot (messages_of self.old.messages.items)))
            - length (given_of slot (messages_of self.old.messages.items))) }
        ensures alterations { self.new.alterations.items ≡ self.old.alterations.items }
        ensures replacements { self.new.replacements.items ≡ self.old.replacements.items }
        ensures cuts { self.new.cuts.items ≡ self.old.cuts.items }
    {
        match self.place_of(slot) {
            Some(place) => {
                let stored = &mut self.messages[place];
                stored.give(into, piece)
            }
            None => 0,
        }
    }

    /// Lets a slot, of which nothing was given yet, end after so many bytes.
    pub fn cut(&mut self, slot: Slot, length: u64) -> Result<(), NoMemory>
        requires given { given_of slot (messages_of self.old.messages.items) ≡ [] }
        requires ended { ended_of slot (messages_of self.old.messages.items) ≡ false }
        ensures messages { messages_of self.new.messages.items ≡ messages_of self.old.messages.items }
        ensures alterations { self.new.alterations.items ≡ self.old.alterations.items }
        ensures replacements { self.new.replacements.items ≡ self.old.replacements.items }
        ensures ok { OnOk result (self.new.cuts.items ≡ self.old.cuts.items ++ record { slot = slot; length = length } ∷ []) }
        ensures err { OnErr result (self.new.cuts.items ≡ self.old.cuts.items) }
    {
        let cut = Cut { slot, length };
        match self.place_of(slot) {
            Some(place) => {
                let bytes = replaced(&self.replacements, slot, &self.messages[place].sent);
                let gives = arrive(self.alloc, &self.alterations, Some(cut), slot, bytes)?;
                push(&mut self.cuts, cut)?;
                self.messages[place].begin_with(gives);
                Ok(())
            }
            None => {
                push(&mut self.cuts, cut)?;
                Ok(())
            }
        }
    }

    /// Lets a slot, of which nothing was given yet, give other bytes than those that are sent into it.
    pub fn replace(&mut self, slot: Slot, bytes: Vec<u8>) -> Result<(), NoMemory>
        requires given { given_of slot (messages_of self.old.messages.items) ≡ [] }
        requires ended { ended_of slot (messages_of self.old.messages.items) ≡ false }
        ensures messages { messages_of self.new.messages.items ≡ messages_of self.old.messages.items }
        ensures alterations { self.new.alterations.items ≡ self.old.alterations.items }
        ensures ok { OnOk result (self.new.replacements.items ≡ self.old.replacements.items ++ record { slot = slot; bytes = bytes.items } ∷ []) }
        ensures err { OnErr result (self.new.replacements.items ≡ self.old.replacements.items) }
        ensures cuts { self.new.cuts.items ≡ self.old.cuts.items }
    {
        match self.place_of(slot) {
            Some(place) => {
                let gives = arrive(
                    self.alloc,
                    &self.alterations,
                    cut_of(&self.cuts, slot),
                    slot,
                    &bytes,
                )?;
                push(
                    &mut self.replacements,
                    Replacement {
                        slot,
                        bytes: Buffer::from_vec(bytes),
                    },
                )?;
                self.messages[place].begin_with(gives);
                Ok(())
            }
            None => {
                push(
                    &mut self.replacements,
                    Replacement {
                        slot,
                        bytes: Buffer::from_vec(bytes),
                    },
                )?;
                Ok(())
            }
        }
    }
}
