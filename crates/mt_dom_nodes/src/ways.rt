ghost use Rattle.std.specs.Prelude.{◌≡◌, IfOk};
ghost use Rattle.mt_dom_nodes.specs.Standing.{Kept, trees_of};
ghost use Rattle.mt_dom_nodes.specs.Trees.{IsNode, path as path_of, is_above as is_above_in};

use crate::links::node;
use crate::node::Node;
use mt_tree::{NoMemory, push};
use std::alloc::Global;

/// From a node to the root of its tree.
pub fn path(alloc: Global, nodes: &[Node], n: usize) -> Result<Vec<usize>, NoMemory>
    requires kept { Kept nodes.now }
    requires inside { IsNode n (trees_of nodes.now) }
    ensures { IfOk result (λ way. way.items ≡ path_of n (trees_of nodes.now)) }
{
    let mut made = Vec::new(alloc);
    let mut at = Some(n);
    'up: while let Some(m) = at {
        push(&mut made, m)?;
        at = node(nodes, m).parent;
    }
    Ok(made)
}

/// Whether a node is another or above it.
pub fn is_above(nodes: &[Node], c: usize, n: usize) -> bool
    requires kept { Kept nodes.now }
    requires inside { IsNode n (trees_of nodes.now) }
    ensures { result ≡ is_above_in c n (trees_of nodes.now) }
{
    let mut at = Some(n);
    'up: while let Some(m) = at {
        if m == c {
            return true;
        }
        at = node(nodes, m).parent;
    }
    false
}
