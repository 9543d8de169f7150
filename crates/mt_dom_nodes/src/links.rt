ghost use Rattle.std.specs.Prelude.{◌≡◌, ◌≢◌, ◌<◌, ◌≤◌, ◌+◌, ◌-◌, ℕ, Option, None, Some, false, length, slice_get, IfSome, IfOk, OnOk, OnErr};
ghost use Rattle.mt_dom_nodes.specs.Standing.{node_at, Kept, trees_of, with_next, with_previous, with_first, with_last_link, with_place, followed, preceded, changed, parent_link, previous_link, next_link, first_link, last_link};
ghost use Rattle.mt_dom_nodes.specs.Trees.{IsNode, moved, detached, created, is_above, size};

use crate::content::Content;
use crate::node::Node;
use mt_tree::{NoMemory, push};

/// Lends a node.
pub fn node(nodes: &[Node], n: usize) -> &Node
    requires some { 0 < n }
    requires inside { n ≤ length nodes.now }
    ensures { node_at nodes.now n ≡ Some result.now }
{
    &nodes[n - 1]
}

fn set_next(nodes: &mut [Node], place: usize, link: Option<usize>)
    requires { place < length nodes.old }
    ensures here { slice_get nodes.new place ≡ with_next link (slice_get nodes.old place) }
    ensures others { (m : ℕ) → m ≢ place → slice_get nodes.new m ≡ slice_get nodes.old m }
{
    let node = &mut nodes[place];
    node.next = link;
}

fn set_previous(nodes: &mut [Node], place: usize, link: Option<usize>)
    requires { place < length nodes.old }
    ensures here { slice_get nodes.new place ≡ with_previous link (slice_get nodes.old place) }
    ensures others { (m : ℕ) → m ≢ place → slice_get nodes.new m ≡ slice_get nodes.old m }
{
    let node = &mut nodes[place];
    node.previous = link;
}

fn set_first(nodes: &mut [Node], place: usize, link: Option<usize>)
    requires { place < length nodes.old }
    ensures here { slice_get nodes.new place ≡ with_first link (slice_get nodes.old place) }
    ensures others { (m : ℕ) → m ≢ place → slice_get nodes.new m ≡ slice_get nodes.old m }
{
    let node = &mut nodes[place];
    node.first = link;
}

fn set_last(nodes: &mut [Node], place: usize, link: Option<usize>)
    requires { place < length nodes.old }
    ensures here { slice_get nodes.new place ≡ with_last_link link (slice_get nodes.old place) }
    ensures others { (m : ℕ) → m ≢ place → slice_get nodes.new m ≡ slice_get nodes.old m }
{
    let node = &mut nodes[place];
    node.last = link;
}

fn set_links(
    nodes: &mut [Node],
    place: usize,
    parent: Option<usize>,
    previous: Option<usize>,
    next: Option<usize>,
)
    requires { place < length nodes.old }
    ensures here { slice_get nodes.new place ≡ with_place parent previous next (slice_get nodes.old place) }
    ensures others { (m : ℕ) → m ≢ place → slice_get nodes.new m ≡ slice_get nodes.old m }
{
    let node = &mut nodes[place];
    node.parent = parent;
    node.previous = previous;
    node.next = next;
}

/// Gives a node its parent and its neighbours.
fn set_place(
    nodes: &mut [Node],
    n: usize,
    parent: Option<usize>,
    previous: Option<usize>,
    next: Option<usize>,
)
    requires some { 0 < n }
    requires inside { n ≤ length nodes.old }
    ensures { (m : ℕ) → node_at nodes.new m ≡ changed n (with_place parent previous next) (node_at nodes.old) m }
{
    set_links(nodes, n - 1, parent, previous, next);
}

/// Lets what comes before a place lead to another node: the neighbour there, or the parent where there is none.
fn set_after(
    nodes: &mut [Node],
    parent: Option<usize>,
    previous: Option<usize>,
    link: Option<usize>,
)
    requires parent { IfSome parent (λ q. (0 < q) × (q ≤ length nodes.old)) }
    requires previous { IfSome previous (λ v. (0 < v) × (v ≤ length nodes.old)) }
    ensures { (m : ℕ) → node_at nodes.new m ≡ followed parent previous link (node_at nodes.old) m }
{
    match previous {
        Some(v) => set_next(nodes, v - 1, link),
        None => {
            if let Some(q) = parent {
                set_first(nodes, q - 1, link);
            }
        }
    }
}

/// Lets what comes after a place lead back to another node: the neighbour there, or the parent where there is none.
fn set_before(nodes: &mut [Node], parent: Option<usize>, next: Option<usize>, link: Option<usize>)
    requires parent { IfSome parent (λ q. (0 < q) × (q ≤ length nodes.old)) }
    requires next { IfSome next (λ w. (0 < w) × (w ≤ length nodes.old)) }
    ensures { (m : ℕ) → node_at nodes.new m ≡ preceded parent next link (node_at nodes.old) m }
{
    match next {
        Some(w) => set_previous(nodes, w - 1, link),
        None => {
            if let Some(q) = parent {
                set_last(nodes, q - 1, link);
            }
        }
    }
}

/// Lets the neighbours and the parent of a node pass it by.
fn unlink(nodes: &mut [Node], c: usize)
    requires kept { Kept nodes.old }
    requires inside { IsNode c (trees_of nodes.old) }
    ensures { (m : ℕ) → node_at nodes.new m ≡ preceded (parent_link (node_at nodes.old c)) (next_link (node_at nodes.old c)) (previous_link (node_at nodes.old c))
        (followed (parent_link (node_at nodes.old c)) (previous_link (node_at nodes.old c)) (next_link (node_at nodes.old c)) (node_at nodes.old)) m }
{
    let at = node(nodes, c);
    let parent = at.parent;
    let previous = at.previous;
    let next = at.next;
    set_after(nodes, parent, previous, next);
    set_before(nodes, parent, next, previous);
}

/// Takes a tree from where it stands, and puts it last below a node.
pub fn append(nodes: &mut [Node], p: usize, c: usize)
    requires kept { Kept nodes.old }
    requires parent { IsNode p (trees_of nodes.old) }
    requires child { IsNode c (trees_of nodes.old) }
    requires apart { is_above c p (trees_of nodes.old) ≡ false }
    requires other { c ≢ 1 }
    ensures kept { Kept nodes.new }
    ensures trees { trees_of nodes.new ≡ moved p c (trees_of nodes.old) }
{
    unlink(nodes, c);
    let last = node(nodes, p).last;
    set_after(nodes, Some(p), last, Some(c));
    set_before(nodes, Some(p), None, Some(c));
    set_place(nodes, c, Some(p), last, None);
}

/// Takes a tree from where it stands, and makes it a detached one.
pub fn remove(nodes: &mut [Node], c: usize)
    requires kept { Kept nodes.old }
    requires inside { IsNode c (trees_of nodes.old) }
    requires other { c ≢ 1 }
    ensures kept { Kept nodes.new }
    ensures trees { trees_of nodes.new ≡ detached c (trees_of nodes.old) }
{
    unlink(nodes, c);
    let next = node(nodes, 1).next;
    set_after(nodes, None, Some(1), Some(c));
    set_before(nodes, None, next, Some(c));
    set_place(nodes, c, None, Some(1), next);
}

/// A new detached node.
pub fn create(nodes: &mut Vec<Node>, content: Content) -> Result<usize, NoMemory>
    requires { Kept nodes.old.items }
    ensures kept { OnOk result (Kept nodes.new.items) }
    ensures number { IfOk result (λ n. n ≡ 1 + size (trees_of nodes.old.items)) }
    ensures trees { OnOk result (trees_of nodes.new.items ≡ created content (trees_of nodes.old.items)) }
    ensures err { OnErr result (nodes.new.items ≡ nodes.old.items) }
{
    let next = node(nodes, 1).next;
    push(
        nodes,
        Node {
            parent: None,
            previous: Some(1),
            next,
            first: None,
            last: None,
            content,
        },
    )?;
    let number = nodes.len();
    set_after(nodes, None, Some(1), Some(number));
    set_before(nodes, None, next, Some(number));
    Ok(number)
}
