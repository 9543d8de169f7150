use crate::wire::Slot;
use mt_tree::Buffer;

/// One byte of one message that is to arrive as another.
#[derive(Clone, Copy, Debug, PartialEq, Eq)]
pub struct Alteration {
    /// The slot of the message.
    pub slot: Slot,
    /// The place of the byte in the message, counted in bytes from 0. One past the end changes nothing.
    pub offset: u64,
    /// The byte that is to arrive there. Of two alterations of one place the last one counts.
    pub byte: u8,
}

/// The bytes that a slot is to give in the place of those that are sent into it.
#[derive(Drop)]
pub struct Replacement {
    /// The slot of the message.
    pub slot: Slot,
    /// The bytes. Of two replacements of one slot the last one counts.
    pub bytes: Buffer<u8>,
}

/// The length at which what a slot gives ends.
#[derive(Clone, Copy, Debug, PartialEq, Eq)]
pub struct Cut {
    /// The slot of the message.
    pub slot: Slot,
    /// The most bytes that it gives. Of two cuts of one slot the last one counts.
    pub length: u64,
}
