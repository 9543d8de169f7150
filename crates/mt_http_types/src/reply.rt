use mt_tree::{Buffer, NoMemory};

/// What the body of a reply holds.
#[derive(Clone, Copy, Debug, PartialEq, Eq)]
pub enum Content {
    /// A page or a fragment of one: `text/html; charset=utf-8`.
    Html,
    /// Data: `application/json`.
    Json,
    /// The text of a failure: `text/plain; charset=utf-8`.
    Plain,
}

/// What a server answers.
#[derive(Drop)]
pub struct Reply {
    /// The status code: 200 for a page, a fragment and data, another one for a failure.
    pub status: u16,
    /// What the body holds.
    pub content: Content,
    /// The body's bytes.
    pub body: Buffer<u8>,
}

/// What stands in front of the body of a reply.
#[derive(Clone, Copy, Debug, PartialEq, Eq)]
pub struct ReplyHead {
    /// The status code.
    pub status: u16,
    /// What the body holds.
    pub content: Content,
    /// How many bytes the body has.
    pub length: u64,
}

/// Why bytes were not read as a reply.
#[derive(Clone, Copy, Debug, PartialEq, Eq)]
pub enum ReplyRefusal {
    /// The bytes are those of no reply.
    NotReply,
    /// Memory ran out. It stands for no other cause.
    NoMemory,
}

impl From<NoMemory> for ReplyRefusal {
    ghost use Rattle.std.specs.Prelude.{◌≡◌};
    ghost use Rattle.mt_http_types.specs.declared.reply.ReplyRefusal.TheVariants.{NoMemory as Memory};

    ghost from_gives = { λ _ refusal. refusal ≡ Memory };

    fn from(_refused: NoMemory) -> ReplyRefusal {
        ReplyRefusal::NoMemory
    }
}
