ghost use Rattle.std.specs.Prelude.{◌≡◌, [], OnOk, OnErr};
ghost use Rattle.mt_stage_declared.specs.Clashes.{with_kind};
ghost use Rattle.mt_stage_declared.specs.Names.{kinds_of, assigned};

use crate::declaration::DeclarationKind;
use crate::kinds::Kinds;
use indexmap::IndexMap;
use mt_tree::{NoMemory, Text};
use std::alloc::Global;
use std::marker::Model;

// The names of a scope with the kinds of their declarations, to be looked up by name. Contracts see a list of names with
// kinds, in the order of the first declarations.
#[derive(Drop)]
pub(crate) struct Table {
    alloc: Global,
    entries: IndexMap<String, Kinds>,
}

impl Model for Table {
    ghost use Rattle.mt_stage_declared.specs.Names.{Entries, named};

    ghost Value = { Entries };

    ghost view = { λ table. named table.entries.entries };
}

impl Table {
    // No names. They take their memory from `alloc` when they are added; this call takes none.
    pub(crate) fn new(alloc: Global) -> Table
        ensures { result ≡ [] }
    {
        Table {
            alloc,
            entries: IndexMap::new(alloc),
        }
    }

    // The kinds of the declarations of the name. Takes no memory.
    pub(crate) fn kinds(&self, name: &Text) -> Kinds
        ensures { result ≡ kinds_of name.now self.now }
    {
        match self.entries.get(name.as_str()) {
            None => Kinds::none(),
            Some(kinds) => *kinds,
        }
    }

    // Adds a declaration of the name.
    //
    // # Errors
    // `NoMemory`; the table is then as before.
    pub(crate) fn add(&mut self, name: &Text, kind: DeclarationKind) -> Result<(), NoMemory>
        ensures ok { OnOk result (self.new ≡ assigned name.now (with_kind kind (kinds_of name.now self.old)) self.old) }
        ensures err { OnErr result (self.new ≡ self.old) }
    {
        let kinds = self.kinds(name).with(kind);
        let key = String::from_str(self.alloc, name.as_str())?;
        match self.entries.insert(key, kinds) {
            Ok(_old) => Ok(()),
            Err(_refused) => Err(NoMemory),
        }
    }
}
