//! Resolved code fits a lawful state where the syntax for which it stands does.
//!
//! `specs/Fitting.antt` tests syntax: its numbers, texts and data are within their limits, its targets are names and properties, and its
//! elements and tildes are allowed. Each function here is a law, whose contract states it and whose body is empty: code that stands for
//! such syntax (`mt_eval_agreement`) is what the evaluator's clauses on lawful states ask for (`mt_eval_keeps`). The server and the client, which
//! resolve their code, stand on it.
#![tactic(auto)]

ghost use Rattle.std.specs.Prelude.{ℕ, List, Option, IsTrue};
ghost use Rattle.mt_eval_meaning.specs.Code.{ClientCodeStands, FileStands, FunctionStands, TableStands};
ghost use Rattle.mt_eval_meaning.specs.Scopes.{Scope};
ghost use Rattle.mt_eval_meaning.specs.States.{Numbered};
ghost use Rattle.mt_eval_fits.specs.Fitting.{FunctionFits, ItemsFit, Suit, is_met};
ghost use Rattle.mt_eval_keeps.specs.Code.{CodeFits};
ghost use Rattle.mt_eval_keeps.specs.Kept.{Tests, UnitFits, allowed, owns, tildes};
ghost use Rattle.mt_eval_meaning.specs.Names.{Surroundings};
ghost use Rattle.mt_eval_meaning.specs.declared.function.Function.{Function};
ghost use Rattle.mt_eval_meaning.specs.declared.function.Unit.{Unit as Unit'};
ghost use Rattle.mt_syntax.specs.declared.tree.Function.{Function as Function'};
ghost use Rattle.mt_syntax.specs.declared.tree.Stmt.{Stmt};

use mt_eval_meaning::Host;

/// The functions of code that stands for syntax fit, where the tests suit it.
pub fn functions_fit<H: Host>()
    ensures { (tests : Tests H) (around : Surroundings) (units : List Function) (table : List Numbered) → TableStands around units table → Suit tests around.tildes table → CodeFits (allowed tests) (tildes tests) (owns tests).function units }
{}

/// The top of a file fits, where its items do.
pub fn file_fits<H: Host>()
    ensures { (tests : Tests H) (around : Surroundings) (units : List Function) (table : List Numbered) → Suit tests around.tildes table → (u : Unit') (items : List Stmt) → FileStands around units table u items → ItemsFit tests around.tildes items → UnitFits tests u }
{}

/// So does the code of a tilde, where its statements do.
pub fn client_code_fits<H: Host>()
    ensures { (tests : Tests H) (around : Surroundings) (units : List Function) (table : List Numbered) → Suit tests around.tildes table → (u : Unit') (items : List Stmt) → ClientCodeStands around units table u items → ItemsFit tests around.tildes items → UnitFits tests u }
{}

/// The number that stands for a function whose syntax fits, as that of a service, is one of those that functions may have.
pub fn function_has_number<H: Host>()
    ensures { (tests : Tests H) (around : Surroundings) (units : List Function) (table : List Numbered) → Suit tests around.tildes table → (scope : Scope) (n : ℕ) (own : Option (List ℕ)) (f : Function') → FunctionStands around units table scope n own f → FunctionFits tests.element (is_met tests around.tildes) f → IsTrue (tests.function n) }
{}
