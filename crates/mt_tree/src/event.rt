use crate::text::Text;

/// A kind of event that a page can have a handler attribute and listeners for.
#[derive(Clone, Copy, Debug, PartialEq, Eq)]
pub enum EventKind {
    /// `click`: an element is pressed.
    Click,
    /// `input`: the text of an input field is changed.
    Input,
    /// `change`: an input field is left with another text.
    Change,
}

/// How the one who acts on a page names an element of it.
#[derive(Drop)]
pub enum NodeName {
    /// The first element of the page in document order whose attribute `id` is this text.
    Id(Text),
    /// The element that has this number. Nodes are numbered from 1 in the order of their making.
    Number(u32),
}
