ghost use Rattle.mt_eval_meaning.specs.Code.{AllStand, ClientCodeStands, FileStands};
ghost use Rattle.mt_eval_meaning.specs.Entering.{Named};
ghost use Rattle.mt_eval_meaning.specs.Evaluation.{file};
ghost use Rattle.mt_eval_meaning.specs.Hoisting.{services};
ghost use Rattle.mt_eval_meaning.specs.Names.{Environment, Surroundings};
ghost use Rattle.mt_eval_meaning.specs.Runs.{gives};
ghost use Rattle.mt_eval_meaning.specs.States.{Numbered};
ghost use Rattle.mt_eval_meaning.specs.declared.function.Function.{Function};
ghost use Rattle.mt_eval_meaning.specs.declared.function.Unit.{Unit as Unit'};
ghost use Rattle.mt_eval_meaning.specs.declared.state.State.{State};
ghost use Rattle.mt_resolve.specs.Captured.{CapturesIn};
ghost use Rattle.mt_resolve.specs.Resolved.{ProgramStands, around_file, AreNumbered, Extends, around_client};
ghost use Rattle.mt_resolve.specs.Services.{Contents, nothing};
ghost use Rattle.mt_resolve.specs.Within.{AreWithin};
ghost use Rattle.mt_syntax.specs.Depth.{depth_of_program};
ghost use Rattle.mt_syntax.specs.Derivation.{IsDerived};
ghost use Rattle.mt_syntax.specs.declared.program.Program.{Program};
ghost use Rattle.mt_syntax.specs.declared.tree.Stmt.{Stmt};
ghost use Rattle.mt_tree.specs.Limits.{depth_limit};
ghost use Rattle.std.specs.Prelude.{◌≡◌, [], ◌≤◌, List};

use mt_eval_meaning::Host;

/// The places that a service captures are the addresses that the environment of the file's top gives to the names free in it, for every
/// host, where the top was evaluated on an empty store.
pub fn services_capture_the_top<H: Host>()
    ensures { (p : Program) (code : Contents) → ProgramStands p code → (s t : State × Named H) (environment : Environment) → s.0.store ≡ [] → s.1.closures ≡ [] → file (around_file p) H.meaning p.items s ≡ gives environment t → AllStand (CapturesIn p environment) code.services (services p.items) }
{}

/// A derived program whose tree is at most 60 deep is so deep also where the expressions of a tilde's dollars stand in the place of the
/// tilde, in which the resolver and the evaluator meet them.
#[tactic(auto, using(crate::proofs::Shallow::shallow_program))]
pub fn shallow_programs_are_within()
    ensures { (p : Program) → IsDerived p → depth_of_program p ≤ depth_limit → AreWithin p.tildes p.items }
{}

/// The units of the empty file have no functions, each of which has a number.
pub fn new_units_are_numbered()
    ensures { AreNumbered around_client nothing.functions [] }
{}

/// The code of a tilde that was resolved stays so.
pub fn client_code_stays()
    ensures { (around : Surroundings) (functions more : List Function) (table longer : List Numbered) → Extends functions table more longer → (u : Unit') (items : List Stmt) → ClientCodeStands around functions table u items → ClientCodeStands around more longer u items }
{}

/// So does the top of a file.
pub fn file_stays()
    ensures { (around : Surroundings) (functions more : List Function) (table longer : List Numbered) → Extends functions table more longer → (u : Unit') (items : List Stmt) → FileStands around functions table u items → FileStands around more longer u items }
{}
