ghost use Rattle.std.specs.Prelude.{◌≡◌, ◌≢◌, ◌+◌, false, Some, IfOk, OnOk, OnErr};
ghost use Rattle.mt_dom_nodes.specs.Trees.{Numbered, IsNode, head, size, tree, none, created, moved, detached, parent_of, under, later, content_of, is_above as is_above_in, path as path_in};

use crate::content::Content;
use crate::node::Node;
use crate::{links, ways};
use mt_tree::{NoMemory, push};
use std::alloc::Global;
use std::marker::Model;

/// The nodes of a page and of the detached trees beside it. Contracts see the list of these trees, the page first.
#[derive(Drop)]
pub struct Nodes {
    nodes: Vec<Node>,
}

impl Model for Nodes {
    ghost use Rattle.mt_dom_nodes.specs.Trees.{Trees};
    ghost use Rattle.mt_dom_nodes.specs.Standing.{trees_of, Kept};
    ghost use Rattle.mt_dom_nodes.specs.Coding.{trees_code};

    ghost Value = { Trees };

    ghost coded = { trees_code };

    ghost view = { λ dom. trees_of dom.nodes.items };

    ghost invariant = { λ dom. Kept dom.nodes.items };
}

impl Nodes {
    /// A page of one node, which has the number 1.
    ///
    /// # Errors
    /// `NoMemory`.
    pub fn new(alloc: Global, content: Content) -> Result<Nodes, NoMemory>
        ensures { IfOk result (λ nodes. nodes ≡ tree 1 content none none) }
    {
        let mut nodes = Vec::new(alloc);
        push(
            &mut nodes,
            Node {
                parent: None,
                previous: None,
                next: None,
                first: None,
                last: None,
                content,
            },
        )?;
        Ok(Nodes { nodes })
    }

    /// The nodes are numbered from 1 on, each once. Does nothing.
    pub fn numbered(&self)
        ensures { Numbered self.now }
    {
        let _ = &self.nodes;
    }

    /// How many nodes there are: the next one has the number after that. Takes no memory.
    pub fn len(&self) -> usize
        ensures { result ≡ size self.now }
    {
        self.nodes.len()
    }

    /// Lends what a node is. Takes no memory.
    pub fn content(&self, n: usize) -> &Content
        requires { IsNode n self.now }
        ensures { content_of n self.now ≡ Some result.now }
    {
        &links::node(&self.nodes, n).content
    }

    /// The parent, `None` exactly where the node is the root of its tree. Takes no memory.
    pub fn parent(&self, n: usize) -> Option<usize>
        requires { IsNode n self.now }
        ensures { result ≡ parent_of n self.now }
    {
        links::node(&self.nodes, n).parent
    }

    /// The first child. Takes no memory.
    pub fn first_child(&self, n: usize) -> Option<usize>
        requires { IsNode n self.now }
        ensures { result ≡ head (under n self.now) }
    {
        links::node(&self.nodes, n).first
    }

    /// The neighbour after a node. Takes no memory.
    pub fn next(&self, n: usize) -> Option<usize>
        requires { IsNode n self.now }
        ensures { result ≡ head (later n self.now) }
    {
        links::node(&self.nodes, n).next
    }

    /// Whether a node is another or above it. Takes no memory.
    pub fn is_above(&self, c: usize, n: usize) -> bool
        requires { IsNode n self.now }
        ensures { result ≡ is_above_in c n self.now }
    {
        ways::is_above(&self.nodes, c, n)
    }

    /// From a node to the root of its tree.
    ///
    /// # Errors
    /// `NoMemory`.
    pub fn path(&self, alloc: Global, n: usize) -> Result<Vec<usize>, NoMemory>
        requires { IsNode n self.now }
        ensures { IfOk result (λ way. way.items ≡ path_in n self.now) }
    {
        ways::path(alloc, &self.nodes, n)
    }

    /// A new detached node, which has the next number.
    ///
    /// # Errors
    /// `NoMemory`; the nodes are then as before.
    pub fn create(&mut self, content: Content) -> Result<usize, NoMemory>
        ensures number { IfOk result (λ n. n ≡ 1 + size self.old) }
        ensures ok { OnOk result (self.new ≡ created content self.old) }
        ensures err { OnErr result (self.new ≡ self.old) }
    {
        links::create(&mut self.nodes, content)
    }

    /// Takes a tree from where it stands, and puts it last below a node. It isn't the page, nor above that node. Takes no memory.
    pub fn append(&mut self, parent: usize, child: usize)
        requires parent { IsNode parent self.old }
        requires child { IsNode child self.old }
        requires apart { is_above_in child parent self.old ≡ false }
        requires other { child ≢ 1 }
        ensures { self.new ≡ moved parent child self.old }
    {
        links::append(&mut self.nodes, parent, child);
    }

    /// Takes a tree from where it stands, and makes it a detached one. It isn't the page. Takes no memory.
    pub fn remove(&mut self, n: usize)
        requires inside { IsNode n self.old }
        requires other { n ≢ 1 }
        ensures { self.new ≡ detached n self.old }
    {
        links::remove(&mut self.nodes, n);
    }
}
