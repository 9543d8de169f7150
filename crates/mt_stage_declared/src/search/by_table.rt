ghost use Rattle.std.specs.Prelude.{◌≡◌, [], ◌∷◌, if◌then◌else◌, IfOk};
ghost use Rattle.mt_syntax.specs.First.{first_of};
ghost use Rattle.mt_stage_declared.specs.Declarations.{declaration};
ghost use Rattle.mt_stage_declared.specs.Repeated.{repeated, clashes_with, twice_at};

use crate::declaration::{Declaration, DeclarationKind};
use crate::names::{declare_all, declared_here};
use crate::repeated::twice_at;
use crate::search::Search;
use crate::table::Table;
use mt_syntax::{Broken, Mark, Stmt, earlier};
use mt_tree::{NoMemory, Row};
use std::alloc::Global;

// Looks each declaration up in a table of those before it: takes memory, and time in proportion to the size of the scope.
#[derive(Clone, Copy)]
pub(crate) struct ByTable {
    pub(crate) alloc: Global,
}

impl Search for ByTable {
    type Refusal = NoMemory;

    fn in_scope(
        &self,
        kind: DeclarationKind,
        names: &[Mark],
        items: &Row<Stmt>,
    ) -> Result<Option<Broken>, NoMemory> {
        let mut declared = Vec::new(self.alloc);
        declare_all(kind, names, &mut declared)?;
        declared_here(items, &mut declared)?;
        first_repeated(self.alloc, declared.as_slice())
    }
}

// The declaration, where it clashes with one of those in the table.
fn clash_at(table: &Table, declaration: &Declaration) -> Option<Broken>
    ensures { result ≡ first_of (if clashes_with table.now declaration.now then twice_at declaration.now.name ∷ [] else []) }
{
    let kinds = table.kinds(&declaration.name.name);
    if kinds.clash_with(declaration.kind) {
        Some(twice_at(&declaration.name))
    } else {
        None
    }
}

// Of the declarations of a scope in text order, the first that clashes with one before it.
pub(crate) fn first_repeated(
    alloc: Global,
    declared: &[Declaration],
) -> Result<Option<Broken>, NoMemory>
    ensures { IfOk result (λ found. found ≡ first_of (repeated declared.now)) }
{
    let mut table = Table::new(alloc);
    let mut found = None;
    for declaration in declared {
        found = earlier(found, clash_at(&table, declaration));
        table.add(&declaration.name.name, declaration.kind)?;
    }
    Ok(found)
}
