ghost use Rattle.std.specs.Prelude.{◌≡◌, ◌≤◌, List, [], length, map, IfErr, IfOk, OnErr};
ghost use Rattle.mt_eval_meaning.specs.States.{Numbered};
ghost use Rattle.mt_eval_meaning.specs.Evaluation as evaluation;
ghost use Rattle.mt_eval_meaning.specs.Hoisting.{kind_of};
ghost use Rattle.mt_eval_meaning.specs.Runs.{Evals};
ghost use Rattle.mt_resolve.specs.Resolved.{AreNumbered, ClientStands, ProgramStands, around_client};
ghost use Rattle.mt_resolve.specs.Tops as spec;
ghost use Rattle.mt_resolve_names.specs.Around.{surroundings_of};
ghost use Rattle.mt_resolve.specs.Resolving.{EvalsInto};
ghost use Rattle.mt_resolve.specs.Within.{AreWithin};
ghost use Rattle.mt_syntax.specs.Depth.{depth_of};
ghost use Rattle.mt_syntax.specs.declared.tree.Function.{out-Function};
ghost use Rattle.mt_tree.specs.Limits.{depth_limit};

use crate::service::Service;
use crate::units::{UnitId, Units};
use crate::{Resolver, all_hoisted, body, declared_function, stmts};
use mt_eval_meaning::{Body, Exit, Function, Unit};
use mt_resolve_free::variables;
use mt_resolve_names::{Entry, Slot, Surroundings, enter};
use mt_syntax as syntax;
use mt_syntax::{Program, Stmt, StmtKind};
use mt_tree::{DEPTH_LIMIT, NoMemory, Row, push};
use std::alloc::Global;

// How deep syntax may be.
const DEEPEST: usize = DEPTH_LIMIT as usize;

/// The units of a file: code on slots that stands for the program, with a number for each function, and the services. The program is at
/// most 60 deep, where the expressions of a tilde's dollars stand in the place of the tilde.
///
/// # Errors
/// `NoMemory`.
pub fn resolve(alloc: Global, program: &Program) -> Result<Units, NoMemory>
    requires { AreWithin program.now.tildes program.now.items }
    ensures { IfOk result (λ units. ProgramStands program.now units) }
{
    match units_of(alloc, program) {
        Ok(units) => Ok(units),
        Err(Exit::NoMemory) => Err(NoMemory),
        Err(Exit::Throw(_)) | Err(Exit::Stop(_)) => unreachable!(),
    }
}

/// Adds the unit of client code to those of a page, which begins with the units of the empty file. The code is at most 60 deep. Each
/// function and each unit that was there stays as it was, under the same number.
///
/// # Errors
/// `NoMemory`; the units are then as before.
pub fn resolve_client(
    alloc: Global,
    code: &Row<Stmt>,
    units: &mut Units,
) -> Result<UnitId, NoMemory>
    requires { depth_of code.now ≤ depth_limit }
    ensures stands { (table : List Numbered) → AreNumbered around_client units.old.functions table → IfOk result (λ id. ClientStands code.now units.old units.new table id) }
    ensures err { OnErr result (units.new ≡ units.old) }
{
    match add_client(alloc, code, units) {
        Ok(id) => Ok(id),
        Err(Exit::NoMemory) => Err(NoMemory),
        Err(Exit::Throw(_)) | Err(Exit::Stop(_)) => unreachable!(),
    }
}

// The same for a program of any depth; one that is too deep is a stop.
pub(crate) fn units_of(alloc: Global, program: &Program) -> Result<Units, Exit>
    ensures stands { IfOk result (λ units. ProgramStands program.now units) }
    ensures memory { AreWithin program.now.tildes program.now.items → IfErr result (λ e. e ≡ Exit.NoMemory) }
{
    let r = Resolver {
        alloc,
        around: Surroundings::of_file(alloc, program)?,
        first: 0,
    };
    let mut functions = Vec::new(alloc);
    let (top, services) = file(&r, &mut functions, &program.items)?;
    Ok(Units::of_file(alloc, functions, top, services)?)
}

// The same for code of any depth; code that is too deep is a stop.
pub(crate) fn add_client(alloc: Global, code: &Row<Stmt>, units: &mut Units) -> Result<UnitId, Exit>
    ensures stands { (table : List Numbered) → AreNumbered around_client units.old.functions table → IfOk result (λ id. ClientStands code.now units.old units.new table id) }
    ensures memory { AreWithin [] code.now → IfErr result (λ e. e ≡ Exit.NoMemory) }
    ensures err { OnErr result (units.new ≡ units.old) }
{
    let r = Resolver {
        alloc,
        around: Surroundings::of_client(alloc)?,
        first: units.functions().len(),
    };
    let mut functions = Vec::new(alloc);
    let unit = client_code(&r, &mut functions, code)?;
    Ok(units.add(functions, unit)?)
}

// The top of the file, with its services.
#[tactic(auto, unfolding(crate::specs::Tops::file))]
fn file(
    r: &Resolver,
    functions: &mut Vec<Function>,
    items: &Row<Stmt>,
) -> Result<(Unit, Row<Service>), Exit>
    ensures { Evals (spec.file (surroundings_of r.now.around) r.now.first items.now functions.old.items) result functions.new.items }
{
    let own = None;
    let code = body(r, DEEPEST, functions, 0, &own, &[], &[], items)?;
    let entered = enter(r.alloc, 0, &own, &[], items)?;
    let scope = entered.entry.inside(r.alloc, &[])?;
    let services = all_services(r, functions, scope.as_slice(), items.items())?;
    let top = Unit {
        globals: Row::from_vec(r.alloc, Vec::new(r.alloc))?,
        body: code,
    };
    Ok((top, services))
}

#[tactic(auto, unfolding(crate::specs::Tops::all_services))]
fn all_services(
    r: &Resolver,
    functions: &mut Vec<Function>,
    scope: &[Slot],
    from: &[Stmt],
) -> Result<Row<Service>, Exit>
    ensures { Evals (spec.all_services (surroundings_of r.now.around) r.now.first scope.now from.entry.now functions.old.items) result functions.new.items }
{
    let mut left = from;
    let mut done = Vec::new(r.alloc);
    while let [t, rest @ ..] = left {
        service_one(r, functions, scope, &mut done, t)?;
        left = rest;
    }
    Ok(Row::from_vec(r.alloc, done)?)
}

// Adds the service that the statement declares, if it declares one.
fn service_one(
    r: &Resolver,
    functions: &mut Vec<Function>,
    scope: &[Slot],
    done: &mut Vec<Service>,
    from: &Stmt,
) -> Result<(), Exit>
    ensures { EvalsInto (spec.service_one (surroundings_of r.now.around) r.now.first scope.now done.old.items (kind_of from.now) functions.old.items) result done.new.items functions.new.items }
{
    match &from.kind {
        StmtKind::Service(f) => service_named(r, functions, scope, done, f),
        _ => Ok(()),
    }
}

fn service_named(
    r: &Resolver,
    functions: &mut Vec<Function>,
    scope: &[Slot],
    done: &mut Vec<Service>,
    from: &syntax::Function,
) -> Result<(), Exit>
    ensures { EvalsInto (spec.service_named (surroundings_of r.now.around) r.now.first scope.now done.old.items (out-Function from.now).name from.now functions.old.items) result done.new.items functions.new.items }
{
    match &from.name {
        None => Ok(()),
        Some(mark) => {
            let function = declared_function(r, DEEPEST, functions, scope, from)?;
            let own = None;
            let kept = r.around.captured(scope, &own, from)?;
            let service = Service {
                name: mark.name.share()?,
                function,
                captured: places(r.alloc, kept.as_slice())?,
            };
            push(done, service)?;
            Ok(())
        }
    }
}

// The slots as places of cells. The place of each cell of a store fits.
fn places(alloc: Global, kept: &[Slot]) -> Result<Row<u32>, NoMemory>
    ensures { IfOk result (λ places. places ≡ map (λ s. s.slot) kept.now) }
{
    let mut places = Vec::new(alloc);
    for slot in kept {
        push(&mut places, place(slot.slot)?)?;
    }
    Row::from_vec(alloc, places)
}

fn place(slot: usize) -> Result<u32, NoMemory>
    ensures { IfOk result (λ place. place ≡ slot) }
{
    match u32::try_from(slot) {
        Ok(place) => Ok(place),
        Err(_too_large) => Err(NoMemory),
    }
}

#[tactic(auto, unfolding(crate::specs::Tops::client_code))]
fn client_code(r: &Resolver, functions: &mut Vec<Function>, items: &Row<Stmt>) -> Result<Unit, Exit>
    ensures { Evals (spec.client_code (surroundings_of r.now.around) r.now.first items.now functions.old.items) result functions.new.items }
{
    let mut entry = Entry::new(r.alloc, 0);
    entry.bind_lexicals(items.items())?;
    let undeclared = entry.len();
    let scope = entry.inside(r.alloc, &[])?;
    let hoisted = all_hoisted(r, DEEPEST, functions, scope.as_slice(), items.items())?;
    let statements = stmts(
        r,
        DEEPEST,
        functions,
        scope.as_slice(),
        undeclared,
        items.items(),
    )?;
    Ok(Unit {
        globals: Row::from_vec(r.alloc, variables(r.alloc, items)?)?,
        body: Body {
            variables: 0,
            undeclared,
            hoisted,
            statements,
        },
    })
}
