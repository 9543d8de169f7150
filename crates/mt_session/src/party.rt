use mt_tree::Buffer;

/// Where a message of a client stands: a request, and later the reply to it.
#[derive(Clone, Copy, Debug, PartialEq, Eq)]
pub enum Standing {
    /// Its request was sent.
    Asked,
    /// Its reply was sent.
    Answered,
    /// Its reply was taken.
    Over,
}

/// A client of a run.
#[derive(Drop)]
pub struct Party {
    /// The client's number, from 1.
    pub number: u32,
    /// How many pages it has read.
    pub pages: u64,
    /// Where each of its messages stands, the first one first.
    pub standings: Buffer<Standing>,
}
