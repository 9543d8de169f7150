//! What is true of the trees that the grammar derives, apart from any code.

ghost use Rattle.std.specs.Prelude.{◌≤◌, ◌*◌, [], length};
ghost use Rattle.mt_grammar.specs.Token.{Tokens};
ghost use Rattle.mt_grammar.specs.Tree.{Stmts};
ghost use Rattle.mt_grammar.specs.Nodes.{stmts_nodes};
ghost use Rattle.mt_grammar.specs.Grammar.{IsProgram};

/// The tree of a program has at most four nodes for each of its tokens.
#[tactic(auto, using(crate::proofs::Few::few))]
pub fn nodes_are_few()
    ensures { (ts : Tokens) (ss : Stmts) → IsProgram ts ss → length (stmts_nodes ss []) ≤ 4 * length ts }
{}
