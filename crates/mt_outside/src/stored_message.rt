ghost use Rattle.std.specs.Prelude.{◌≡◌, ◌≤◌, ◌<◌, ◌-◌, ◌++◌, ◌||◌, true, false, min, IsTrue, vec_len, length, take};
ghost use Rattle.mt_outside.specs.Message.{is_end};

use crate::wire::Slot;

/// A message as it was sent, the bytes that it is to give, how many of these it gave, and whether it gave its end.
#[derive(Drop)]
pub struct StoredMessage {
    pub slot: Slot,
    pub sent: Vec<u8>,
    pub gives: Vec<u8>,
    pub at: usize,
    pub ended: bool,
    ghost inside: { at ≤ vec_len gives },
    ghost over: { ended ≡ true → at ≡ vec_len gives },
}

impl StoredMessage {
    /// Gives the next bytes, at most `piece` of them.
    pub fn give(&mut self, into: &mut [u8], piece: usize) -> usize
        requires { 0 < piece }
        ensures slot { self.new.slot ≡ self.old.slot }
        ensures sent { self.new.sent.items ≡ self.old.sent.items }
        ensures gives { self.new.gives.items ≡ self.old.gives.items }
        ensures bound { result ≤ length into.new }
        ensures count { result ≡ min (min piece (length into.new)) (vec_len self.old.gives - self.old.at) }
        ensures given { take self.new.at self.new.gives.items ≡ take self.old.at self.old.gives.items ++ take result into.new }
        ensures ended { self.new.ended ≡ (self.old.ended || is_end result into.new) }
        ensures over { self.old.ended ≡ true → result ≡ 0 }
    {
        let left = self.gives.len() - self.at;
        let count = piece.min(into.len()).min(left);
        into[..count].copy_from_slice(&self.gives[self.at..self.at + count]);
        if count == 0 {
            if !into.is_empty() {
                self.ended = true;
            }
        } else {
            self.at += count;
        }
        count
    }

    /// Takes these bytes as those that it is to give, of which it gave none.
    pub fn begin_with(&mut self, gives: Vec<u8>)
        ensures slot { self.new.slot ≡ self.old.slot }
        ensures sent { self.new.sent.items ≡ self.old.sent.items }
        ensures gives { self.new.gives.items ≡ gives.items }
        ensures at { self.new.at ≡ 0 }
        ensures ended { self.new.ended ≡ false }
    {
        self.gives = gives;
        self.at = 0;
        self.ended = false;
    }
}
