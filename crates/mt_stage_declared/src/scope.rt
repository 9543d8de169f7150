ghost use Rattle.std.specs.Prelude.{◌≡◌, IfOk};
ghost use Rattle.mt_stage_declared.specs.Scopes.{Tells, declares};

use crate::declaration::Declaration;
use crate::table::Table;
use mt_tree::{NoMemory, Row, Text};
use std::alloc::Global;
use std::marker::Model;
use std::rc::Rc;

/// The declarations of one scope, which never change, to be looked up by name. Contracts see their list in text order, so a
/// scope and those that share its contents are the same value.
#[derive(Drop)]
pub struct Scope {
    declared: Row<Declaration>,
    table: Rc<Table>,
}

impl Model for Scope {
    ghost use Rattle.std.specs.Prelude.{List};
    ghost use Rattle.mt_stage_declared.specs.Scopes.{Tells};
    ghost use Rattle.mt_stage_declared.specs.declared.declaration.Declaration.{Declaration};

    ghost Value = { List Declaration };

    ghost view = { λ scope. scope.declared };

    ghost invariant = { λ scope. Tells scope.table.value scope.declared };
}

impl Scope {
    /// Keeps the declarations, in order.
    ///
    /// # Errors
    /// `NoMemory`; the declarations are then dropped.
    pub fn new(alloc: Global, declared: Vec<Declaration>) -> Result<Scope, NoMemory>
        ensures { IfOk result (λ scope. scope ≡ declared.items) }
    {
        let table = table_of(alloc, declared.as_slice())?;
        let declared = Row::from_vec(alloc, declared)?;
        match Rc::new(alloc, table) {
            Ok(table) => Ok(Scope { declared, table }),
            Err(_refused) => Err(NoMemory),
        }
    }

    /// An equal scope, which shares the contents and copies none.
    ///
    /// # Errors
    /// `NoMemory` where a count of sharers is at its last value.
    pub fn share(&self) -> Result<Scope, NoMemory>
        ensures { IfOk result (λ scope. scope ≡ self.now) }
    {
        let declared = self.declared.share()?;
        match self.table.clone() {
            Ok(table) => Ok(Scope { declared, table }),
            Err(_refused) => Err(NoMemory),
        }
    }

    /// Whether the scope declares the name, in whatever way. Takes no memory, and the time of one look-up.
    pub fn declares(&self, name: &Text) -> bool
        ensures { result ≡ declares name.now self.now }
    {
        self.table.as_ref().kinds(name).any()
    }
}

fn table_of(alloc: Global, declared: &[Declaration]) -> Result<Table, NoMemory>
    ensures { IfOk result (λ table. Tells table declared.now) }
{
    let mut table = Table::new(alloc);
    for declaration in declared {
        table.add(&declaration.name.name, declaration.kind)?;
    }
    Ok(table)
}
