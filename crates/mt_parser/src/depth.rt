ghost use Rattle.std.specs.Prelude.{◌≡◌, ◌+◌, [], None, IfOk, reverse};
ghost use Rattle.mt_grammar.specs.Depth as spec;
ghost use Rattle.mt_grammar.specs.Nodes.{stmts_nodes};
ghost use Rattle.mt_grammar.specs.Tree.{Stmts};
ghost use Rattle.mt_parser_marks.specs.NodeViews.{nodes_of};

use crate::levels::Levels;
use crate::place::counted_place;
use mt_grammar::scan_finds_too_deep;
use mt_parser_builder::inside;
use mt_parser_marks::Node;
use mt_tree::Place;
use std::alloc::{AllocError, Global};

/// Where the first statement or expression stands, in the order of the text, that is deeper than the limit, for the nodes of a
/// tree, each behind those in it; a statement at the top of the file has depth 1. `None` where the tree is no deeper. Nodes that
/// are those of no tree are answered by the same pass. The time is linear in the number of nodes.
///
/// The error comes only where memory runs out.
pub fn first_too_deep(
    alloc: Global,
    nodes: &[Node<'_>],
    limit: u16,
) -> Result<Option<Place>, AllocError>
    ensures tree { (ss : Stmts) → nodes_of nodes.now ≡ stmts_nodes ss [] → IfOk result (λ found. found ≡ spec.too_deep_at limit ss) }
    ensures pass { IfOk result (λ found. found ≡ spec.scan (limit + 1) (reverse (nodes_of nodes.now)) [] None) }
{
    scan_finds_too_deep();
    scan(alloc, nodes, limit as u32 + 1)
}

// The place of the first node at level 1, where those at the top are at this level.
fn scan(alloc: Global, nodes: &[Node<'_>], top: u32) -> Result<Option<Place>, AllocError>
    ensures { IfOk result (λ found. found ≡ spec.scan top (reverse (nodes_of nodes.now)) [] None) }
{
    let mut levels = Levels::new(alloc, top);
    let mut found = None;
    let mut left = nodes.len();
    while left > 0 {
        left -= 1;
        let node = &nodes[left];
        let level = levels.next()?;
        let place = counted_place(node);
        found = found_at(place, level, found);
        levels.add(level_within(place, level), inside(node))?;
    }
    Ok(found)
}

// The place of a node at level 1, else what was found behind it.
fn found_at(place: Option<Place>, level: u32, found: Option<Place>) -> Option<Place>
    ensures { result ≡ spec.found_at place level found }
{
    match place {
        Some(place) if level == 1 => Some(place),
        _ => found,
    }
}

// The level of what stands in a node.
fn level_within(place: Option<Place>, level: u32) -> u32
    ensures { result ≡ spec.below place level }
{
    match place {
        Some(_) => level.saturating_sub(1),
        None => level,
    }
}
