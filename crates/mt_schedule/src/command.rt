use mt_http_types::Target;
use mt_tree::{EventKind, NodeName, Row, Text};

/// What a line of a schedule asks for.
///
/// Clients have the numbers 1 to 64, and 1 to 512 in version 2. The messages of a client are its loads and posts, numbered from
/// 1 to at most 1,000,000 in the order of their sending.
#[derive(Drop)]
pub enum Command {
    /// This client asks for the page of this target.
    Load(u32, Target),
    /// The one who uses this client acts on an element of its page. A text is put in exactly where the kind is `Input`; it has at
    /// most 1,048,576 units of UTF-16, and no U+0000.
    Event(u32, EventKind, NodeName, Option<Text>),
    /// The server takes the request of this client's message.
    Serve(u32, u64),
    /// This client takes the reply to its message.
    Deliver(u32, u64),
    /// The request or the reply of this client's message is lost.
    Lose(u32, u64),
}

/// The commands of a schedule, in their order.
#[derive(Drop)]
pub struct Schedule {
    /// The commands.
    pub commands: Row<Command>,
}
