//! Applications that are evaluated.

ghost use Rattle.std.specs.Prelude.{◌<◌, length, IfOk};
ghost use Rattle.mt_stage.specs.Accepted.{IsAccepted};

use anyhow::{Result, bail, ensure};
use mt_builtins::PlainHost;
use mt_eval::evaluate;
use mt_eval_meaning::{Budget, Done};
use mt_resolve::{Units, resolve, shallow_programs_are_within};
use mt_source::read_source;
use mt_syntax::Program;
use mt_tree::{NoMemory, SOURCE_LIMIT};
use mt_value::{Globals, Store};
use rows::made;
use std::alloc::Global;

/// What there is once the top of an application was evaluated.
#[derive(Drop)]
pub struct Ended {
    /// Its code.
    pub units: Units,
    /// The cells.
    pub store: Store,
    /// The steps that are left.
    pub budget: Budget,
    /// How it ended.
    pub done: Done,
}

/// The code of an application.
pub fn resolved(alloc: Global, source: &str) -> Result<Units>
    ensures { IfOk result (λ units. 0 < length units.units) }
{
    ensure!(source.len() <= SOURCE_LIMIT, "too long");
    let checked = made(read_source(alloc, source.as_bytes()))?;
    of_program(alloc, checked.program())
}

fn of_program(alloc: Global, program: &Program) -> Result<Units>
    requires { IsAccepted program.now }
    ensures { IfOk result (λ units. 0 < length units.units) }
{
    shallow_programs_are_within();
    match resolve(alloc, program) {
        Ok(units) => Ok(units),
        Err(NoMemory) => bail!("no memory"),
    }
}

/// Evaluates the top of an application with that many steps.
pub fn evaluated(alloc: Global, source: &str, steps: u64) -> Result<Ended> {
    let units = resolved(alloc, source)?;
    let mut store = Store::new(alloc);
    let mut budget = Budget { left: steps };
    let done = end_of_top(alloc, &units, &mut store, &mut budget)?;
    Ok(Ended {
        units,
        store,
        budget,
        done,
    })
}

fn end_of_top(alloc: Global, units: &Units, store: &mut Store, budget: &mut Budget) -> Result<Done>
    requires { 0 < length units.now.units }
{
    let mut globals = Globals::new(alloc);
    let mut host = PlainHost::new(alloc);
    made(evaluate(
        alloc,
        units.functions(),
        units.unit(units.top()),
        store,
        &mut globals,
        &mut host,
        budget,
    ))
}
