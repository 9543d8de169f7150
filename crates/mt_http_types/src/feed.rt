/// Whether a reader that is fed in pieces wants more.
#[derive(Clone, Copy, Debug, PartialEq, Eq)]
pub enum Feed {
    /// Later bytes may matter.
    More,
    /// No later byte matters; later pieces are ignored.
    Decided,
}

/// What a piece gave to a reader of replies.
#[derive(Clone, Copy)]
pub struct Part<'a> {
    /// The bytes of the piece that belong to the reply's body, lent from the piece and not copied.
    pub body: &'a [u8],
    /// Whether the reader wants more.
    pub feed: Feed,
}
