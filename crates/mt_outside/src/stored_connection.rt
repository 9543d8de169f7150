ghost use Rattle.std.specs.Prelude.{◌≡◌, ◌≤◌, ◌<◌, ◌+◌, ◌-◌, ◌++◌, ◌||◌, [], true, false, min, length, take, drop, OnOk, OnErr};
ghost use Rattle.mt_outside.specs.Files.{ReadsPart};
ghost use Rattle.mt_outside.specs.Message.{is_end};

use mt_tree::{Buffer, NoMemory};
use std::alloc::Global;

/// A connection: the bytes that come in on it, how many of them were given, whether their end was, and the bytes that went
/// out.
#[derive(Drop)]
pub struct StoredConnection {
    pub incoming: Buffer<u8>,
    pub given: usize,
    pub ended: bool,
    pub outgoing: Vec<u8>,
    ghost inside: { given ≤ length incoming },
}

impl StoredConnection {
    /// A connection on which nothing was read or written.
    pub fn new(alloc: Global, incoming: Buffer<u8>) -> StoredConnection
        ensures incoming { result.incoming ≡ incoming }
        ensures given { result.given ≡ 0 }
        ensures ended { result.ended ≡ false }
        ensures outgoing { result.outgoing.items ≡ [] }
    {
        StoredConnection {
            incoming,
            given: 0,
            ended: false,
            outgoing: Vec::new(alloc),
        }
    }

    /// Gives the next incoming bytes, at most `piece` of them.
    pub fn read(&mut self, into: &mut [u8], piece: usize) -> usize
        requires { 0 < piece }
        ensures bound { result ≤ length into.new }
        ensures count { result ≡ min (min piece (length into.new)) (length self.old.incoming - self.old.given) }
        ensures part { ReadsPart self.old.incoming self.old.given result into.new }
        ensures incoming { self.new.incoming ≡ self.old.incoming }
        ensures given { self.new.given ≡ self.old.given + result }
        ensures ended { self.new.ended ≡ (self.old.ended || is_end result into.new) }
        ensures outgoing { self.new.outgoing.items ≡ self.old.outgoing.items }
    {
        let rest = &self.incoming.items()[self.given..];
        let count = piece.min(into.len()).min(rest.len());
        into[..count].copy_from_slice(&rest[..count]);
        self.given += count;
        if count == 0 && !into.is_empty() {
            self.ended = true;
        }
        count
    }

    /// Appends outgoing bytes.
    pub fn write(&mut self, bytes: &[u8]) -> Result<(), NoMemory>
        ensures incoming { self.new.incoming ≡ self.old.incoming }
        ensures given { self.new.given ≡ self.old.given }
        ensures ended { self.new.ended ≡ self.old.ended }
        ensures ok { OnOk result (self.new.outgoing.items ≡ self.old.outgoing.items ++ bytes.now) }
        ensures err { OnErr result (self.new.outgoing.items ≡ self.old.outgoing.items) }
    {
        match self.outgoing.extend_from_slice(bytes) {
            Ok(()) => Ok(()),
            Err(_refused) => Err(NoMemory),
        }
    }
}
