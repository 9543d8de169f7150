use mt_value::Address;

/// What runs next in a dispatch.
#[derive(Clone, Copy)]
pub enum Turn {
    /// The handler attribute of this node.
    Handler(usize),
    /// This function, which listens on this node.
    Listener(usize, Address),
}
