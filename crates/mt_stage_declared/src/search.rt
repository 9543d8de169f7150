//! The search for the first name that one scope declares twice, in two ways.

ghost use Rattle.std.specs.Prelude.{◌≡◌, IfOk};
ghost use Rattle.mt_syntax.specs.First.{first_of};
ghost use Rattle.mt_stage_declared.specs.Repeated.{repeated};
ghost use Rattle.mt_stage_declared.specs.Scopes.{scope_of};

mod by_comparison;
mod by_table;

use crate::declaration::DeclarationKind;
pub(crate) use by_comparison::ByComparison;
pub(crate) use by_table::{ByTable, first_repeated};
use mt_syntax::{Broken, Mark, Stmt};
use mt_tree::Row;

// A way to find, of the declarations of a scope in text order, the first that clashes with one before it.
pub(crate) trait Search {
    // Why there may be no answer.
    type Refusal;

    // In a scope that declares these names, all in one way, and then what the statements declare in it.
    fn in_scope(
        &self,
        kind: DeclarationKind,
        names: &[Mark],
        items: &Row<Stmt>,
    ) -> Result<Option<Broken>, Self::Refusal>
        ensures { IfOk result (λ found. found ≡ first_of (repeated (scope_of kind names.now items.now))) };
}
