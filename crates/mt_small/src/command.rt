use mt_tree::Text;

/// One line of the schedule of a small application.
///
/// Clients have the numbers 1 to 64. The messages of a client are its loads, numbered from 1 to at most 1,000,000.
#[derive(Drop)]
pub enum SmallCommand {
    /// This client asks for the page of this target, which is `/hop/` and 1 to 32 lower-case ASCII letters.
    Load(u32, Text),
    /// The server takes the request of this client's message.
    Serve(u32, u64),
    /// This client takes the reply to its message.
    Deliver(u32, u64),
}
