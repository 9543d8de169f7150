use mt_events::Page;
use mt_tree::{EventKind, NoMemory};
use std::alloc::Global;

/// A page in which every number is an element.
#[derive(Drop)]
pub struct Given {
    /// An element and those above it, whichever element it is.
    pub path: Vec<usize>,
    /// The elements with handlers.
    pub handlers: Vec<usize>,
}

impl Page for Given {
    ghost use Rattle.std.specs.Prelude.{◌==◌};
    ghost use Rattle.std.specs.List.{list_any};

    ghost is_element = { λ page node. Unit {0} };

    ghost handles = { λ page kind node. list_any (λ n. n == node) page.handlers.items };

    ghost path_of = { λ page node. page.path.items };

    fn has_handler(&self, node: usize, _kind: EventKind) -> bool {
        self.handlers.iter().any(|n| *n == node)
    }

    fn path(&self, alloc: Global, _node: usize) -> Result<Vec<usize>, NoMemory> {
        Ok(Vec::from_slice(alloc, self.path.as_slice())?)
    }
}
