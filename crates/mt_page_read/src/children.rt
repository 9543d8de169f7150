ghost use Rattle.std.specs.Prelude.{◌≡◌, ◌∷◌, ◌++◌, [], IfOk, OnOk};

use mt_tree::{NoMemory, Row, push};
use std::alloc::Global;
use std::marker::Model;

/// The children of an open element. Contracts see the list of them.
#[derive(Drop)]
pub struct Children<T> {
    items: Vec<T>,
}

impl<T> Model for Children<T> {
    ghost use Rattle.std.specs.Prelude.{List};
    ghost use Rattle.std.specs.Coded.{coded_list};

    ghost Value = { List T };

    ghost coded = { coded_list T.code };

    ghost view = { λ children. children.items.items };
}

impl<T> Children<T> {
    /// No children yet. Takes no memory.
    pub fn new(alloc: Global) -> Children<T>
        ensures { result ≡ [] }
    {
        Children {
            items: Vec::new(alloc),
        }
    }
}

impl<T: Drop> Children<T> {
    /// Puts a child behind the others.
    ///
    /// # Errors
    /// `NoMemory`; the child is then dropped.
    pub fn push(&mut self, child: T) -> Result<(), NoMemory>
        ensures { OnOk result (self.new ≡ self.old ++ child ∷ []) }
    {
        push(&mut self.items, child)
    }

    /// The children as a row, which copies none.
    ///
    /// # Errors
    /// `NoMemory`; the children are then dropped.
    pub fn into_row(self, alloc: Global) -> Result<Row<T>, NoMemory>
        ensures { IfOk result (λ row. row ≡ self) }
    {
        Row::from_vec(alloc, self.items)
    }
}
