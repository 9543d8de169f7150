//! Accepted programs, and client code within the limits, are such as the evaluator's lawful states can meet.
//!
//! `mt_eval_fits` tests syntax: resolved code that stands for syntax which passes keeps a state lawful. Each function here is a law, whose
//! contract states it and whose body is empty. A program that the check of the stage rules accepts passes the test: its items, the
//! expressions of its tildes' dollars, and its services ([`accepted_program_fits`]). So does client code within the limits
//! ([`client_code_within_limits_fits`]). A host needs nothing but to let code make the elements of the tables (`specs/Elements.antt`) and
//! meet the program's tildes with as many values as they have dollars (`specs/ProgramTests.antt`).
//!
//! The proof joins what is known of a program, each given by a function on trees, into one such function (`Products` in `proofs`), and
//! goes by induction over the tree (`Server`, `Client`). That each tilde that is met is one of the program, and each expression of a
//! dollar stands in a tilde that is met, follows from their numbers (`Listed`, `Programs`). The server and the client stand on this crate.
#![tactic(auto)]

ghost use Rattle.std.specs.Prelude.{ℕ, Bool, List, [], All};
ghost use Rattle.mt_eval_fits.specs.Fitting.{ExprFits, FunctionFits, ItemsFit, Suit, is_met};
ghost use Rattle.mt_eval_keeps.specs.Growth.{Thing};
ghost use Rattle.mt_eval_keeps.specs.Kept.{Tests};
ghost use Rattle.mt_eval_meaning.specs.Hoisting.{services};
ghost use Rattle.mt_eval_meaning.specs.States.{Numbered};
ghost use Rattle.mt_program_fits.specs.ProgramTests.{Admits, client_tests, program_tests};
ghost use Rattle.mt_stage.specs.Accepted.{IsAccepted};
ghost use Rattle.mt_stage.specs.CodeLimits.{IsCodeWithinLimits};
ghost use Rattle.mt_syntax.specs.declared.program.Program.{Program};
ghost use Rattle.mt_syntax.specs.declared.tree.Stmt.{Stmt};

use mt_eval_meaning::Host;
use mt_marshal::data_within_limits_can_be_built;
use mt_stage::accepted_programs_are_made;

/// The items of an accepted program, the expressions of its tildes' dollars, and its services pass the test of syntax that can be
/// evaluated.
pub fn accepted_program_fits<H: Host>()
    ensures items { (tests : Tests H) (p : Program) → IsAccepted p → Admits tests p → ItemsFit tests p.tildes p.items }
    ensures dollars { (tests : Tests H) (p : Program) → IsAccepted p → Admits tests p → All (λ t. All (ExprFits tests.element (is_met tests p.tildes)) t.dollars) p.tildes }
    ensures services { (tests : Tests H) (p : Program) → IsAccepted p → Admits tests p → All (λ f. FunctionFits tests.element (is_met tests p.tildes) f.1) (services p.items) }
{
    accepted_programs_are_made();
}

/// Client code within the limits, such as is read from a page, passes the test over whatever host.
pub fn client_code_within_limits_fits<H: Host>()
    ensures { (tests : Tests H) (body : List Stmt) → IsCodeWithinLimits body → ItemsFit tests [] body }
{
    data_within_limits_can_be_built();
}

/// The tests of a program suit the table of its functions, where the program is accepted.
pub fn program_tests_suit<H: Host>()
    ensures { (own : H → Thing → Bool) (addresses : H → List ℕ) (p : Program) (table : List Numbered) → IsAccepted p → Suit (program_tests own addresses p table) p.tildes table }
{
    accepted_programs_are_made();
}

/// The tests of client code suit the table of its functions.
pub fn client_tests_suit<H: Host>()
    ensures { (own : H → Thing → Bool) (addresses : H → List ℕ) (table : List Numbered) → Suit (client_tests own addresses table) [] table }
{}
