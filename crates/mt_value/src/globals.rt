ghost use Rattle.std.specs.Prelude.{◌≡◌, [], OnOk, OnErr};
ghost use Rattle.std.specs.Option.{option_copied};
ghost use Rattle.mt_value.specs.Globals.{value_of, assigned};

use crate::value::Value;
use indexmap::IndexMap;
use mt_tree::{NoMemory, Text};
use std::alloc::Global;
use std::marker::Model;

/// The global variables of a client. Contracts see a list of names with values, in the order of the first assignments.
#[derive(Drop)]
pub struct Globals {
    alloc: Global,
    table: IndexMap<String, Value>,
}

impl Model for Globals {
    ghost use Rattle.mt_value.specs.Globals.{Variables};
    ghost use Rattle.mt_value.specs.Names.{named};

    ghost Value = { Variables };

    ghost view = { λ globals. named globals.table.entries };
}

impl Globals {
    /// No variables. They take their memory from `alloc` when they grow; this call takes none.
    pub fn new(alloc: Global) -> Globals
        ensures { result ≡ [] }
    {
        Globals {
            alloc,
            table: IndexMap::new(alloc),
        }
    }

    /// Lends the value of a variable, `None` exactly where it wasn't assigned yet. Takes no memory.
    pub fn find(&self, name: &Text) -> Option<&Value>
        ensures { option_copied result ≡ value_of name.now self.now }
    {
        self.table.get(name.as_str())
    }

    /// Gives a variable a value: one that is there keeps its place, and a new one goes last.
    ///
    /// # Errors
    /// `NoMemory`; the variables are then as before, and the value is dropped.
    pub fn assign(&mut self, name: &Text, value: Value) -> Result<(), NoMemory>
        ensures ok { OnOk result (self.new ≡ assigned name.now value self.old) }
        ensures err { OnErr result (self.new ≡ self.old) }
    {
        let key = String::from_str(self.alloc, name.as_str())?;
        match self.table.insert(key, value) {
            Ok(_old) => Ok(()),
            Err(_refused) => Err(NoMemory),
        }
    }
}
