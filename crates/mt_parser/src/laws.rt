ghost use Rattle.mt_grammar.specs.Grammar.{IsProgram};
ghost use Rattle.mt_grammar.specs.Token.{Tokens};
ghost use Rattle.mt_grammar.specs.Tree.{Stmts};
ghost use Rattle.mt_lexer.specs.Tokens.{Spelled};
ghost use Rattle.mt_lexer.specs.Verdict.{Reads};
ghost use Rattle.mt_parser.specs.Parsing.{Answers, IsAnswer};
ghost use Rattle.mt_parser.specs.declared.refusal.ParseRefusal.{ParseRefusal};
ghost use Rattle.mt_parser.specs.declared.refusal.ParseRefusal.TheVariants.{TooDeep};
ghost use Rattle.mt_parser_builder.specs.Program.{program_of};
ghost use Rattle.mt_parser_marks.specs.Tokens.{tokens_in};
ghost use Rattle.mt_syntax.specs.Depth.{depth_of_program};
ghost use Rattle.mt_syntax.specs.Derivation.{IsDerived};
ghost use Rattle.mt_syntax.specs.declared.program.Program.{Program};
ghost use Rattle.mt_tree.specs.Limits.{depth_limit};
ghost use Rattle.mt_tree.specs.declared.place.Place.{Place};
ghost use Rattle.std.specs.Prelude.{◌≡◌, Result, ◌<◌, ◌≤◌, Ok, Err};

/// Tokens have at most one answer, want of memory aside.
#[tactic(auto, using(crate::proofs::Answer::one_answer))]
pub fn answer_is_unique()
    ensures { (ts : Tokens) (end : Place) (a b : Result Program ParseRefusal) → IsAnswer a → IsAnswer b → Answers ts end a → Answers ts end b → a ≡ b }
{}

/// The program that is answered for the tokens of a source is one that the grammar derives.
pub fn parsed_program_is_derived()
    ensures { (s : Spelled) (end : Place) (program : Program) → Reads s.source (Ok s) → Answers (tokens_in s) end (Ok program) → IsDerived program }
{}

/// The program that is answered is at most 60 deep, its tildes and their dollars among it.
pub fn parsed_program_is_not_too_deep()
    ensures { (ts : Tokens) (end : Place) (program : Program) → Answers ts end (Ok program) → depth_of_program program ≤ depth_limit }
{}

/// Tokens that are refused as too deep would be a program that is more than 60 deep.
pub fn refused_program_is_too_deep()
    ensures { (ts : Tokens) (end place : Place) (ss : Stmts) → Answers ts end (Err (TooDeep place)) → IsProgram ts ss → depth_limit < depth_of_program (program_of ss) }
{}
