//! The trees that nodes stand for.

ghost use Rattle.std.specs.Prelude.{◌≡◌, ◌≤◌, IfOk, OnOk, drop, length, map, take};
ghost use Rattle.mt_parser_marks.specs.NodeViews.{node_of};
ghost use Rattle.mt_parser_builder.specs.Answer.{GivesList, Changes};
ghost use Rattle.mt_parser_builder.specs.Growing.{grown_by, grown};

use crate::fault::Fault;
use crate::parse_tree::ParseTree;
use crate::reading::{inside, part};
use mt_parser_marks::Node;
use mt_tree::{NoMemory, Row, push};
use std::alloc::Global;

// The trees behind the first `kept` ones, which stay.
fn split(trees: &mut Vec<ParseTree>, kept: usize) -> Result<Vec<ParseTree>, NoMemory>
    requires { kept ≤ length trees.old.items }
    ensures kept { OnOk result (trees.new.items ≡ take kept trees.old.items) }
    ensures given { IfOk result (λ last. last.items ≡ drop kept trees.old.items) }
{
    match trees.split_off(kept) {
        Ok(last) => Ok(last),
        Err(_refused) => Err(NoMemory),
    }
}

fn add(alloc: Global, node: &Node, trees: &mut Vec<ParseTree>) -> Result<(), Fault>
    ensures { Changes result trees.new.items (grown_by (node_of node.now) trees.old.items) }
{
    let count = inside(node);
    if (trees.len() as u128) < count {
        return Err(Fault::Malformed);
    }
    let kept = trees.len() - count as usize;
    let children = split(trees, kept)?;
    let part = part(alloc, node)?;
    let children = Row::from_vec(alloc, children)?;
    push(trees, ParseTree { part, children })?;
    Ok(())
}

// A loop, so that no source is too deep for it.
#[tactic(auto, using(crate::proofs::Failing::none_grown))]
pub(crate) fn grow(alloc: Global, nodes: &[Node]) -> Result<Vec<ParseTree>, Fault>
    ensures { GivesList result (grown (map node_of nodes.now)) }
{
    let mut trees = Vec::new(alloc);
    for node in nodes {
        add(alloc, node, &mut trees)?;
    }
    Ok(trees)
}
