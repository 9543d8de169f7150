ghost use Rattle.std.specs.Prelude.{◌≡◌, [], ◌∷◌, ◌++◌, ◌<◌, length, slice_get, slice_set, Some, IfOk, OnOk, OnErr};
ghost use Rattle.std.specs.Option.{option_copied};
ghost use Rattle.mt_value.specs.Lawful.{Lawful, LawfulCell, Names, kind_of};

use crate::address::Address;
use crate::cell::Cell;
use mt_tree::NoMemory;
use std::alloc::Global;
use std::marker::Model;
use std::mem;

/// The cells of one run of the server, or of one page of a client. Contracts see the list of cells, in which an
/// [`Address`] is a place.
#[derive(Drop)]
pub struct Store {
    cells: Vec<Cell>,
}

impl Model for Store {
    ghost use Rattle.std.specs.Prelude.{List};
    ghost use Rattle.std.specs.Coded.{codes, coded_list};
    ghost use Rattle.mt_tree.specs.contracts.closure.Closure as closure;
    ghost use Rattle.mt_tree.specs.contracts.data.Data as datum;
    ghost use Rattle.mt_tree.specs.contracts.html.Html as html;
    ghost use Rattle.mt_value.specs.declared.cell.Cell.{Cell};

    ghost Value = { List Cell };

    ghost coded = { Prim.hlevel (codes, datum.the_row.coded, (html.the_row closure.the_row).coded) };

    ghost view = { λ store. store.cells.items };
}

impl Store {
    /// A store without cells, which takes its memory from `alloc` when it grows. Takes none itself.
    pub fn new(alloc: Global) -> Store
        ensures { result ≡ [] }
    {
        Store {
            cells: Vec::new(alloc),
        }
    }

    /// Lends a cell. The address is in the store. Takes no memory.
    pub fn cell(&self, at: Address) -> &Cell
        requires { at < length self.now }
        ensures { slice_get self.now at ≡ Some result.now }
    {
        &self.cells[at.place]
    }

    /// Lends a cell, `None` exactly where the address isn't in the store. Takes no memory.
    pub fn get(&self, at: Address) -> Option<&Cell>
        ensures { option_copied result ≡ slice_get self.now at }
    {
        self.cells.get(at.place)
    }

    /// Puts a cell behind all others and gives its address.
    ///
    /// # Errors
    /// `NoMemory`; the store is then as before, and the cell is dropped.
    #[tactic(auto, using(crate::proofs::Laws::lawful_added))]
    pub fn add(&mut self, cell: Cell) -> Result<Address, NoMemory>
        ensures address { IfOk result (λ at. at ≡ length self.old) }
        ensures ok { OnOk result (self.new ≡ self.old ++ cell ∷ []) }
        ensures err { OnErr result (self.new ≡ self.old) }
        ensures lawful { OnOk result (Lawful self.old → LawfulCell self.new cell → Lawful self.new) }
    {
        let place = self.cells.len();
        match self.cells.push(cell) {
            Ok(()) => Ok(Address { place }),
            Err(_refused) => Err(NoMemory),
        }
    }

    /// Puts a cell in the place of another and gives back the one that stood there. The address is in the store. Takes no
    /// memory.
    #[tactic(auto, using(crate::proofs::Laws::lawful_put))]
    pub fn exchange(&mut self, at: Address, cell: Cell) -> Cell
        requires { at < length self.old }
        ensures given { slice_get self.old at ≡ Some result }
        ensures kept { self.new ≡ slice_set self.old at cell }
        ensures lawful { Names self.old (kind_of cell) at → Lawful self.old → LawfulCell self.new cell → Lawful self.new }
    {
        mem::replace(&mut self.cells[at.place], cell)
    }

    /// The address of the cell at a place, counted from 0. The place is below the number of cells. Takes no memory.
    pub fn address(&self, place: u32) -> Address
        requires { place < length self.now }
        ensures { result ≡ place }
    {
        let place = place as usize;
        Address { place }
    }
}
