use crate::content::Content;

/// A node with its links. The trees themselves, the page and the detached ones, are each other's neighbours and have no parent.
#[derive(Drop)]
pub struct Node {
    pub parent: Option<usize>,
    /// The neighbour before it.
    pub previous: Option<usize>,
    /// The neighbour after it.
    pub next: Option<usize>,
    /// Its first child.
    pub first: Option<usize>,
    /// Its last child.
    pub last: Option<usize>,
    pub content: Content,
}
