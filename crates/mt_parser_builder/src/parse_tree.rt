use crate::part::Part;
use mt_tree::Row;

// A node with the nodes in it, in text order.
#[derive(Drop)]
pub(crate) struct ParseTree {
    pub(crate) part: Part,
    pub(crate) children: Row<ParseTree>,
}
