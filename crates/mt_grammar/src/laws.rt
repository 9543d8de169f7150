//! What is true of the grammar and its machine, apart from any code: the contract of each function
//! is a law, and its body is empty.

ghost use Rattle.std.specs.Prelude.{◌≡◌, ◌+◌, ℕ, [], Some, None, reverse};
ghost use Rattle.mt_grammar.specs.Token.{Tokens};
ghost use Rattle.mt_grammar.specs.Tree.{Stmts};
ghost use Rattle.mt_grammar.specs.Nodes.{Nodes, stmts_nodes};
ghost use Rattle.mt_grammar.specs.Grammar.{IsProgram};
ghost use Rattle.mt_grammar.specs.Machine.{Configuration, after, parsed, start};
ghost use Rattle.mt_grammar.specs.Values.{built, of_stmts};
ghost use Rattle.mt_grammar.specs.Continues.{BeginsProgram};
ghost use Rattle.mt_grammar.specs.Depth.{scan, too_deep_at};
ghost use Rattle.mt_grammar.specs.Samples.{Accepted, Refused};

/// What has a derivation is read by the machine, which gives the nodes of its tree.
#[tactic(auto, using(crate::proofs::Complete::complete))]
pub fn derived_is_read()
    ensures { (ts : Tokens) (ss : Stmts) → IsProgram ts ss → parsed ts ≡ Some (stmts_nodes ss []) }
{}

/// What the machine reads has a derivation, and what it gives are the nodes of its tree.
#[tactic(auto, using(crate::proofs::Sound::sound))]
pub fn read_is_derived()
    ensures { (ts : Tokens) (nodes : Nodes) → parsed ts ≡ Some nodes → (ss : Stmts) × IsProgram ts ss × (nodes ≡ stmts_nodes ss []) }
{}

/// A list of tokens has at most one tree.
#[tactic(auto, using(crate::proofs::Unique::unique))]
pub fn tree_is_unique()
    ensures { (ts : Tokens) (a b : Stmts) → IsProgram ts a → IsProgram ts b → a ≡ b }
{}

/// From the nodes of a program its statements are built again.
#[tactic(auto, using(crate::proofs::Unique::program_built))]
pub fn program_is_built()
    ensures { (ss : Stmts) → built (stmts_nodes ss []) ≡ Some (of_stmts ss) }
{}

/// Where the machine has refused a token, no program begins with the tokens up to it.
#[tactic(auto, using(crate::proofs::Viable::no_program))]
pub fn refused_begins_no_program()
    ensures { (front : Tokens) → after front start ≡ None → BeginsProgram front → ⊥ }
{}

/// Where the machine has refused no token, some program begins with the tokens so far.
#[tactic(auto, using(crate::proofs::Viable::some_program))]
pub fn unrefused_begins_some_program()
    ensures { (front : Tokens) (c : Configuration) → after front start ≡ Some c → BeginsProgram front }
{}

/// One pass over the nodes of a program, from the last one back, gives the place of the first
/// statement or expression that stands deeper than the limit.
#[tactic(auto, using(crate::proofs::Deep::deep))]
pub fn scan_finds_too_deep()
    ensures { (limit : ℕ) (ss : Stmts) → scan (limit + 1) (reverse (stmts_nodes ss [])) [] None ≡ too_deep_at limit ss }
{}

/// Small sources that are programs, and others with the token at which they are refused.
#[tactic(auto, using(crate::proofs::Samples::accepted, crate::proofs::Samples::refused))]
pub fn samples_are_judged()
    ensures accepted { Accepted }
    ensures refused { Refused }
{}
