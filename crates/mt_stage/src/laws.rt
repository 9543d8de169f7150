ghost use Rattle.mt_stage.specs.Accepted.{Breaks, IsAccepted, Refuses};
ghost use Rattle.mt_stage.specs.CodeLimits.{IsCodeWithinLimits};
ghost use Rattle.mt_stage.specs.Made.{IsMadeProgram};
ghost use Rattle.mt_syntax.specs.DataLimits.{AreWithinLimits};
ghost use Rattle.mt_syntax.specs.First.{comes_before};
ghost use Rattle.mt_syntax.specs.Substitution.{subst};
ghost use Rattle.mt_syntax.specs.declared.program.Program.{Program};
ghost use Rattle.mt_syntax.specs.declared.program.Tilde.{Tilde};
ghost use Rattle.mt_syntax.specs.declared.rule.Rule.{Rule};
ghost use Rattle.mt_tree.specs.declared.data.Data.{Data};
ghost use Rattle.mt_tree.specs.declared.place.Place.{Place};
ghost use Rattle.std.specs.Prelude.{◌≡◌, false, ℕ, List, Some, length, slice_get};
ghost use Rattle.mt_stage.specs.declared.refusal.StageRefusal.TheVariants as refusal;

/// A refusal names a place at which the program breaks the rule. The program breaks none at an earlier place, and none with a lower
/// number at this place.
pub fn refusal_is_the_first()
    ensures broken { (p : Program) (r : Rule) (place : Place) → Refuses (refusal.Broken r place) p → Breaks p r place }
    ensures first { (p : Program) (r s : Rule) (place other : Place) → Refuses (refusal.Broken r place) p → Breaks p s other → comes_before (record { place = other; rule = s }) (record { place = place; rule = r }) ≡ false }
{}

/// An accepted program breaks no rule at any place.
pub fn accepted_breaks_nothing()
    ensures { (p : Program) (r : Rule) (place : Place) → IsAccepted p → ¬ Breaks p r place }
{}

/// A tilde of an accepted program becomes, with data within the limits for its dollars, client code within the limits.
pub fn tildes_become_code_within_limits()
    ensures { (p : Program) (number : ℕ) (t : Tilde) (values : List Data) → IsAccepted p → slice_get p.tildes number ≡ Some t → length values ≡ length t.dollars → AreWithinLimits values → IsCodeWithinLimits (subst values t.body) }
{}

/// An accepted program has no stray dollar, in its items, the code of its tildes and the expressions of their dollars, and its elements have
/// tags and distinct attributes of the tables.
pub fn accepted_programs_are_made()
    ensures { (p : Program) → IsAccepted p → IsMadeProgram p }
{}
