use mt_syntax::Code;
use mt_tree::{Attribute, Buffer, Text};

/// What a node is, beside its place among the others.
#[derive(Drop)]
pub enum Content {
    /// An element: its tag and its attributes.
    Element(Text, Buffer<Attribute<Code>>),
    /// A text, not escaped.
    Text(Text),
    /// Client code that ran when the page was built.
    Script(Code),
}
