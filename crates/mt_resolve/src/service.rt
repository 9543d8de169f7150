use mt_tree::{Row, Text};

/// A service of a file.
#[derive(Drop)]
pub struct Service {
    /// Its name.
    pub name: Text,
    /// The number of its function.
    pub function: usize,
    /// The places of the cells that the names free in it have, where the top of the file was evaluated on an empty store: the slots
    /// that it captures, in the order of its code.
    pub captured: Row<u32>,
}
