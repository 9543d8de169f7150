use mt_tree::{Buffer, Text};

/// What the bytes of a request decided.
#[derive(Drop)]
pub enum Settled {
    /// The request is refused with this status.
    Refused(u16),
    /// This service is asked for a page, with arguments whose text these bytes are to be.
    Load(Text, Buffer<u8>),
    /// This service is called, with arguments whose text these bytes are to be.
    Post(Text, Buffer<u8>),
}
