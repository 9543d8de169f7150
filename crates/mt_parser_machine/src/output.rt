use mt_parser_marks::Node;
use std::alloc::{AllocError, Global};
use std::marker::Model;

/// The nodes that are finished, in order.
#[derive(Drop)]
pub struct Output<'a> {
    items: Vec<Node<'a>>,
}

impl<'a> Model for Output<'a> {
    ghost use Rattle.mt_grammar.specs.Nodes.{Nodes};
    ghost use Rattle.mt_parser_marks.specs.NodeViews.{nodes_of};

    ghost Value = { Nodes };

    ghost view = { λ s. nodes_of s.items.items };
}

impl<'a> Output<'a> {
    ghost use Rattle.std.specs.Prelude.{◌≡◌, ◌∷◌, ◌++◌, [], OnOk};
    ghost use Rattle.mt_parser_marks.specs.NodeViews.{node_of, nodes_of};

    /// No nodes.
    #[tactic(auto, unfolding(mt_parser_marks::specs::NodeViews::nodes_of))]
    pub fn new(alloc: Global) -> Output<'a>
        ensures { result ≡ [] }
    {
        Output {
            items: Vec::new(alloc),
        }
    }

    /// A node more, behind the others.
    pub fn push(&mut self, node: Node<'a>) -> Result<(), AllocError>
        ensures { OnOk result (self.new ≡ self.old ++ node_of node.entry ∷ []) }
    {
        self.items.push(node)?;
        Ok(())
    }

    /// The nodes in order.
    pub fn into_nodes(self) -> Vec<Node<'a>>
        ensures { nodes_of result.items ≡ self.entry }
    {
        self.items
    }
}
