ghost use Rattle.std.specs.Prelude.{◌≡◌, ◌↔◌, [], flat_map, IfOk, IsTrue};
ghost use Rattle.mt_syntax.specs.First.{first_of};
ghost use Rattle.mt_stage_declared.specs.Declarations.{declared_in_file, declared_in_tilde};
ghost use Rattle.mt_stage_declared.specs.Twice.{declared_twice, twice_at_top, twice_in_client, twice_in_row, twice_in_tilde};

use crate::declaration::{Declaration, DeclarationKind};
use crate::first;
use crate::names::declared_in_file;
use crate::predicate::IsBuiltin;
use crate::search::{ByComparison, ByTable, Search, first_repeated};
use crate::walk::{exprs, stmts};
use mt_syntax::{Broken, Program, Stmt, Tilde, earlier};
use mt_tree::{NoMemory, Row};
use std::alloc::Global;

/// The first place at which a name of the program is declared twice in one scope, or at which the top of the file or of a
/// tilde declares the name of a builtin. `None` exactly where there is no such place. Of two declarations the later one counts.
/// Takes time in proportion to the program's size.
///
/// # Errors
/// `NoMemory`.
pub fn declared_twice(alloc: Global, program: &Program) -> Result<Option<Broken>, NoMemory>
    ensures { IfOk result (λ found. found ≡ first_of (declared_twice program.now)) }
{
    let search = ByTable { alloc };
    let top = file(alloc, &program.items)?;
    let inner = stmts(&search, &program.items)?;
    let client = tildes(&search, program.tildes.items())?;
    Ok(earlier(top, earlier(inner, client)))
}

/// Whether client code, which is a body of its own, declares no name twice in one scope, and at its top no name of a builtin.
/// Takes no memory, and time in proportion to the square of the code's size.
pub fn declares_once(body: &Row<Stmt>) -> bool
    ensures { IsTrue result ↔ (twice_in_client body.now ≡ []) }
{
    match client(&ByComparison, body) {
        Ok(found) => found.is_none(),
    }
}

/// What [`declares_once`] answers, with memory for a table of the names of a scope: takes time in proportion to the code's size.
///
/// # Errors
/// `NoMemory`.
pub fn declares_once_by_table(alloc: Global, body: &Row<Stmt>) -> Result<bool, NoMemory>
    ensures { IfOk result (λ once. IsTrue once ↔ (twice_in_client body.now ≡ [])) }
{
    let found = client(&ByTable { alloc }, body)?;
    Ok(found.is_none())
}

fn file(alloc: Global, items: &Row<Stmt>) -> Result<Option<Broken>, NoMemory>
    ensures { IfOk result (λ found. found ≡ first_of (twice_at_top (declared_in_file items.now))) }
{
    let mut declared = Vec::new(alloc);
    declared_in_file(items, &mut declared)?;
    at_top(alloc, declared.as_slice())
}

fn at_top(alloc: Global, declared: &[Declaration]) -> Result<Option<Broken>, NoMemory>
    ensures { IfOk result (λ found. found ≡ first_of (twice_at_top declared.now)) }
{
    let repeated = first_repeated(alloc, declared)?;
    Ok(earlier(repeated, first::in_list(&IsBuiltin, declared)))
}

fn client_top<S: Search>(search: &S, body: &Row<Stmt>) -> Result<Option<Broken>, S::Refusal>
    ensures { IfOk result (λ found. found ≡ first_of (twice_at_top (declared_in_tilde body.now))) }
{
    let repeated = search.in_scope(DeclarationKind::Parameter, &[], body)?;
    Ok(earlier(repeated, first::in_statements(&IsBuiltin, body.items())))
}

fn client<S: Search>(search: &S, body: &Row<Stmt>) -> Result<Option<Broken>, S::Refusal>
    ensures { IfOk result (λ found. found ≡ first_of (twice_in_client body.now)) }
{
    let top = client_top(search, body)?;
    let inner = stmts(search, body)?;
    Ok(earlier(top, inner))
}

fn tilde<S: Search>(search: &S, from: &Tilde) -> Result<Option<Broken>, S::Refusal>
    ensures { IfOk result (λ found. found ≡ first_of (twice_in_tilde from.now)) }
{
    let body = client(search, &from.body)?;
    let dollars = exprs(search, &from.dollars)?;
    Ok(earlier(body, dollars))
}

fn tildes<S: Search>(search: &S, all: &[Tilde]) -> Result<Option<Broken>, S::Refusal>
    ensures { IfOk result (λ found. found ≡ first_of (flat_map twice_in_tilde all.now)) }
{
    let mut found = None;
    for item in all {
        found = earlier(found, tilde(search, item)?);
    }
    Ok(found)
}
