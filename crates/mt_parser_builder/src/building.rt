ghost use Rattle.std.specs.Prelude.{◌≡◌, ◌<◌, [], length, map, IfOk};
ghost use Rattle.mt_grammar.specs.Tree.{Stmts};
ghost use Rattle.mt_grammar.specs.Nodes.{stmts_nodes};
ghost use Rattle.mt_parser_marks.specs.NodeViews.{node_of, nodes_of};
ghost use Rattle.mt_parser_builder.specs.Answer.{Gives};
ghost use Rattle.mt_parser_builder.specs.Building.{program_made};
ghost use Rattle.mt_parser_builder.specs.Program.{program_of};

use crate::fault::Fault;
use crate::found::{Found, nothing_after};
use crate::growth::grow;
use crate::rows::row;
use crate::tier::Tier;
use crate::values::values;
use mt_parser_marks::Node;
use mt_syntax::Program;
use mt_tree::{NoMemory, Row};
use std::alloc::Global;

pub(crate) fn made(alloc: Global, nodes: &[Node]) -> Result<Program, Fault>
    ensures { Gives result (program_made (map node_of nodes.now)) }
{
    let trees = grow(alloc, nodes)?;
    let count = trees.len();
    let trees = Row::from_vec(alloc, trees)?;
    let mut found = nothing_after(alloc, 0);
    let mut parts = values(alloc, &trees, Tier::Server, &mut found)?.into_iter();
    let items = row(alloc, count, &mut parts)?;
    let Found {
        before: _,
        tildes,
        dollars: _,
    } = found;
    Ok(Program {
        items,
        tildes: Row::from_vec(alloc, tildes)?,
    })
}

/// The program that a spelled tree stands for, from the tree's nodes, each behind those in it.
///
/// Its tildes are numbered in the order of the text, and the dollars directly in a tilde likewise. There are fewer than
/// 4,294,967,295 nodes. The tree's depth is that of the calls, so a caller first sees that it is not too deep.
///
/// # Errors
/// `NoMemory`.
#[tactic(auto, using(crate::proofs::Whole::built))]
pub fn build(alloc: Global, nodes: &[Node]) -> Result<Program, NoMemory>
    requires few { length nodes.now < 0xFFFF_FFFF }
    requires tree { (ss : Stmts) × (nodes_of nodes.now ≡ stmts_nodes ss []) }
    ensures { (ss : Stmts) → nodes_of nodes.now ≡ stmts_nodes ss [] → IfOk result (λ p. p ≡ program_of ss) }
{
    match made(alloc, nodes) {
        Ok(program) => Ok(program),
        Err(Fault::NoMemory) => Err(NoMemory),
        Err(Fault::Malformed) => unreachable!(),
    }
}
