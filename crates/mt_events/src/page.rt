use mt_tree::{EventKind, NoMemory};
use std::alloc::Global;

/// What a dispatch asks of a page.
pub trait Page {
    ghost use Rattle.std.specs.Prelude.{◌≡◌, ℕ, Bool, List, IfOk};
    ghost use Rattle.mt_tree.specs.declared.event.EventKind.{EventKind};

    /// Which nodes are elements.
    ghost is_element: { Self → ℕ → Type 0 };

    /// Which of them have a handler attribute of this kind.
    ghost handles: { Self → EventKind → ℕ → Bool };

    /// An element, its parent, and so on to the root of its tree.
    ghost path_of: { Self → ℕ → List ℕ };

    /// Whether the element has a handler attribute of this kind. Takes no memory.
    fn has_handler(&self, node: usize, kind: EventKind) -> bool
        requires { is_element self.now node }
        ensures { result ≡ handles self.now kind node };

    /// The path from an element to the root of its tree, both with it.
    ///
    /// # Errors
    /// `NoMemory`.
    fn path(&self, alloc: Global, node: usize) -> Result<Vec<usize>, NoMemory>
        requires { is_element self.now node }
        ensures { IfOk result (λ path. path.items ≡ path_of self.now node) };
}
