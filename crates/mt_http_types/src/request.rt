use crate::target::Target;
use mt_tree::{Data, Row, Text};

/// What a client sends.
#[derive(Drop)]
pub enum Request {
    /// It asks for the page of this target.
    Load(Target),
    /// It calls this service.
    Post(Call),
}

/// A call of a service.
#[derive(Drop)]
pub struct Call {
    /// The service's name.
    pub service: Text,
    /// The arguments, in order.
    pub arguments: Row<Data>,
}

/// What a server takes the bytes of a connection for.
#[derive(Drop)]
pub enum Asked {
    /// The page that this call of a service gives.
    Load(Call),
    /// The data, or the fragment of a page, that this call of a service gives.
    Post(Call),
    /// Neither; the status with which it is refused.
    Refused(u16),
}
