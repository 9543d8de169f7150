ghost use Rattle.std.specs.Prelude.{◌≡◌, ◌<◌, ◌++◌, ◌∷◌, [], length, is_some, slice_get, Some, true, IfOk, IfSome, OnErr, OnOk};
ghost use Rattle.mt_resolve.specs.Services.{captured_by, function_of, nothing};

use crate::service::Service;
use mt_eval_meaning::{Body, Function, Unit};
use mt_tree::{NoMemory, Row, Text, push};
use std::alloc::Global;
use std::marker::Model;

/// The name of one unit of a [`Units`]. Only the calls of this crate make one. Contracts see its number.
#[derive(Clone, Copy, PartialEq, Eq)]
pub struct UnitId {
    pub(crate) number: usize,
}

impl Model for UnitId {
    ghost use Rattle.std.specs.Prelude.{ℕ};
    ghost use Rattle.std.specs.Coded.{coded_ℕ};

    ghost Value = { ℕ };

    ghost coded = { coded_ℕ };

    ghost view = { λ id. id.number };

    ghost inverse = { λ number. record { number = number } };
}

/// Resolved code: functions and units by their numbers, and the services. Contracts see the three lists.
#[derive(Drop)]
pub struct Units {
    functions: Vec<Function>,
    units: Vec<Unit>,
    services: Row<Service>,
}

impl Model for Units {
    ghost use Rattle.std.specs.Coded.{codes};
    ghost use Rattle.mt_resolve.specs.Services.{Contents};
    ghost use Rattle.mt_eval_meaning.specs.contracts.expr.Expr as expr;
    ghost use Rattle.mt_eval_meaning.specs.contracts.stmt.Stmt as stmt;
    ghost use Rattle.mt_tree.specs.contracts.data.Data as datum;

    ghost Value = { Contents };

    ghost coded = { Prim.hlevel (codes, datum.the_row.coded, expr.the_row.coded, stmt.the_row.coded) };

    ghost view = { λ u. record { functions = u.functions.items; units = u.units.items; services = u.services } };
}

impl Units {
    /// The units of the empty file: its top, which does nothing, and no functions.
    ///
    /// # Errors
    /// `NoMemory`.
    pub fn new(alloc: Global) -> Result<Units, NoMemory>
        ensures { IfOk result (λ units. units ≡ nothing) }
    {
        let body = Body {
            variables: 0,
            undeclared: 0,
            hoisted: Row::from_vec(alloc, Vec::new(alloc))?,
            statements: Row::from_vec(alloc, Vec::new(alloc))?,
        };
        let top = Unit {
            globals: Row::from_vec(alloc, Vec::new(alloc))?,
            body,
        };
        let services = Row::from_vec(alloc, Vec::new(alloc))?;
        Units::of_file(alloc, Vec::new(alloc), top, services)
    }

    // Those of a file.
    pub(crate) fn of_file(
        alloc: Global,
        functions: Vec<Function>,
        top: Unit,
        services: Row<Service>,
    ) -> Result<Units, NoMemory>
        ensures { IfOk result (λ units. units ≡ record { functions = functions.items; units = top ∷ []; services = services }) }
    {
        let mut units = Vec::new(alloc);
        push(&mut units, top)?;
        Ok(Units {
            functions,
            units,
            services,
        })
    }

    // Adds functions and one unit that calls them.
    //
    // # Errors
    // `NoMemory`; the units are then as before.
    pub(crate) fn add(
        &mut self,
        mut functions: Vec<Function>,
        unit: Unit,
    ) -> Result<UnitId, NoMemory>
        ensures ok { OnOk result (self.new ≡ record self.old { functions = self.old.functions ++ functions.items; units = self.old.units ++ unit ∷ [] }) }
        ensures number { IfOk result (λ id. id ≡ length self.old.units) }
        ensures err { OnErr result (self.new ≡ self.old) }
    {
        let number = self.units.len();
        push(&mut self.units, unit)?;
        match self.functions.append(&mut functions) {
            Ok(()) => Ok(UnitId { number }),
            Err(_refused) => {
                self.units.truncate(number);
                Err(NoMemory)
            }
        }
    }

    /// The top of the file, which is evaluated on an empty store alone. Takes no memory.
    pub fn top(&self) -> UnitId
        ensures { result ≡ 0 }
    {
        UnitId { number: 0 }
    }

    /// Lends a unit, which is one of these. Takes no memory.
    pub fn unit(&self, id: UnitId) -> &Unit
        requires { id < length self.now.units }
        ensures { slice_get self.now.units id ≡ Some result.now }
    {
        &self.units[id.number]
    }

    /// Lends the functions, in the order of their numbers. Takes no memory.
    pub fn functions(&self) -> &[Function]
        ensures { result.now ≡ self.now.functions }
    {
        self.functions.as_slice()
    }

    /// The number of a service's function; `None` exactly where there is no service of the name. Takes no memory.
    pub fn service(&self, name: &Text) -> Option<usize>
        ensures same { result ≡ function_of name.now self.now.services }
        ensures captures { IfSome result (λ function. is_some (captured_by function self.now.services) ≡ true) }
    {
        function_of(self.services.items(), name)
    }

    /// The places of the cells that the names free in a service have, where the top of the file was evaluated on an empty store. The
    /// number is that of a service's function. Takes no memory.
    pub fn captured(&self, function: usize) -> &[u32]
        requires { is_some (captured_by function self.now.services) ≡ true }
        ensures { captured_by function self.now.services ≡ Some result.now }
    {
        captured_by(self.services.items(), function)
    }
}

fn function_of(services: &[Service], name: &Text) -> Option<usize>
    ensures { result ≡ function_of name.now services.entry.now }
{
    let mut left = services;
    while let [service, rest @ ..] = left {
        if *name == service.name {
            return Some(service.function);
        }
        left = rest;
    }
    None
}

fn captured_by(services: &[Service], function: usize) -> &[u32]
    requires { is_some (captured_by function services.now) ≡ true }
    ensures { captured_by function services.entry.now ≡ Some result.now }
{
    let mut left = services;
    while let [service, rest @ ..] = left {
        if function == service.function {
            return service.captured.items();
        }
        left = rest;
    }
    &[]
}
