ghost use Rattle.std.specs.Prelude.{◌≡◌, ◌++◌, ◌∷◌, [], map, flat_map, option_map, IfOk, OnOk};
ghost use Rattle.mt_eval_meaning.specs.Entering.{function_names};
ghost use Rattle.mt_eval_meaning.specs.Hoisting.{Names, functions_of_kind, hoisting, kind_of, name_of_decl, named_function, services, services_of_kind, variables, variables_by_word};
ghost use Rattle.mt_syntax.specs.Fold.{on_for_start, on_stmt, on_stmt_kind};
ghost use Rattle.mt_syntax.specs.Gathering.{or_none};
ghost use Rattle.mt_syntax.specs.declared.tree.Function.{out-Function};

use crate::names::push_name;
use mt_syntax::{Decl, ForStart, Function, Stmt, StmtKind};
use mt_tree::{Boxed, NoMemory, Row, Text, VarKind};
use std::alloc::Global;

/// The names that the body declares by `var`, at any depth outside inner functions, in text order.
///
/// # Errors
/// `NoMemory`.
pub fn variables(alloc: Global, body: &Row<Stmt>) -> Result<Vec<Text>, NoMemory>
    ensures { IfOk result (λ names. names.items ≡ variables body.now) }
{
    let mut names = Vec::new(alloc);
    of_stmts(body, &mut names)?;
    Ok(names)
}

// Each of these adds the names of what it is given.

#[cycle(variables)]
fn of_stmt(from: &Stmt, into: &mut Vec<Text>) -> Result<(), NoMemory>
    ensures { OnOk result (into.new.items ≡ into.old.items ++ on_stmt hoisting from.now) }
{
    of_kind(&from.kind, into)
}

#[cycle(variables)]
fn of_kind(from: &StmtKind, into: &mut Vec<Text>) -> Result<(), NoMemory>
    ensures { OnOk result (into.new.items ≡ into.old.items ++ on_stmt_kind hoisting from.now) }
{
    match from {
        StmtKind::Var(word, items) => of_word(*word, items, into),
        StmtKind::If(_test, body, other) => {
            of_stmt(body.get(), into)?;
            of_branch(other, into)
        }
        StmtKind::While(_test, body) => of_stmt(body.get(), into),
        StmtKind::For(first, _test, _step, body) => {
            of_start(first, into)?;
            of_stmt(body.get(), into)
        }
        StmtKind::Try(body, _name, handler) => {
            of_stmt(body.get(), into)?;
            of_stmt(handler.get(), into)
        }
        StmtKind::Block(items) => of_stmts(items, into),
        StmtKind::Expr(_)
        | StmtKind::Function(_)
        | StmtKind::Service(_)
        | StmtKind::Return(_)
        | StmtKind::Break
        | StmtKind::Continue
        | StmtKind::Throw(_)
        | StmtKind::Empty => Ok(()),
    }
}

#[cycle(variables)]
fn of_branch(from: &Option<Boxed<Stmt>>, into: &mut Vec<Text>) -> Result<(), NoMemory>
    ensures { OnOk result (into.new.items ≡ into.old.items ++ or_none {X = Names} [] (λ xs ys. xs ++ ys) (option_map (on_stmt hoisting) from.now)) }
{
    match from {
        None => Ok(()),
        Some(body) => of_stmt(body.get(), into),
    }
}

#[cycle(variables)]
fn of_stmts(items: &Row<Stmt>, into: &mut Vec<Text>) -> Result<(), NoMemory>
    ensures { OnOk result (into.new.items ≡ into.old.items ++ variables items.now) }
{
    for item in items.items() {
        of_stmt(item, into)?;
    }
    Ok(())
}

fn of_start(from: &ForStart, into: &mut Vec<Text>) -> Result<(), NoMemory>
    ensures { OnOk result (into.new.items ≡ into.old.items ++ on_for_start hoisting from.now) }
{
    match from {
        ForStart::Absent => Ok(()),
        ForStart::Var(items) => of_decls(items, into),
        ForStart::Expr(_a) => Ok(()),
    }
}

fn of_word(word: VarKind, items: &Row<Decl>, into: &mut Vec<Text>) -> Result<(), NoMemory>
    ensures { OnOk result (into.new.items ≡ into.old.items ++ variables_by_word word (map name_of_decl items.now)) }
{
    match word {
        VarKind::Var => of_decls(items, into),
        VarKind::Let | VarKind::Const => Ok(()),
    }
}

fn of_decls(items: &Row<Decl>, into: &mut Vec<Text>) -> Result<(), NoMemory>
    ensures { OnOk result (into.new.items ≡ into.old.items ++ map name_of_decl items.now) }
{
    for item in items.items() {
        push_name(into, &item.name.name)?;
    }
    Ok(())
}

/// The names of the functions that the statements declare, in text order.
///
/// # Errors
/// `NoMemory`.
#[tactic(auto, using(crate::proofs::Rows::functions_take, crate::proofs::Rows::nothing_more))]
pub fn function_names(alloc: Global, body: &[Stmt]) -> Result<Vec<Text>, NoMemory>
    ensures { IfOk result (λ names. names.items ≡ function_names body.entry.now) }
{
    let mut left = body;
    let mut names = Vec::new(alloc);
    while let [item, rest @ ..] = left {
        left = rest;
        of_function(item, &mut names)?;
    }
    Ok(names)
}

fn of_function(from: &Stmt, into: &mut Vec<Text>) -> Result<(), NoMemory>
    ensures { OnOk result (into.new.items ≡ into.old.items ++ map (λ f. f.0) (functions_of_kind (kind_of from.now))) }
{
    match &from.kind {
        StmtKind::Function(f) => of_named(f, into),
        _ => Ok(()),
    }
}

/// The names of the services that the items of a file declare, in text order.
///
/// # Errors
/// `NoMemory`.
#[tactic(auto, using(crate::proofs::Rows::services_take, crate::proofs::Rows::nothing_more))]
pub fn service_names(alloc: Global, items: &[Stmt]) -> Result<Vec<Text>, NoMemory>
    ensures { IfOk result (λ names. names.items ≡ map (λ s. s.0) (services items.entry.now)) }
{
    let mut left = items;
    let mut names = Vec::new(alloc);
    while let [item, rest @ ..] = left {
        left = rest;
        of_service(item, &mut names)?;
    }
    Ok(names)
}

fn of_service(from: &Stmt, into: &mut Vec<Text>) -> Result<(), NoMemory>
    ensures { OnOk result (into.new.items ≡ into.old.items ++ map (λ s. s.0) (services_of_kind (kind_of from.now))) }
{
    match &from.kind {
        StmtKind::Service(f) => of_named(f, into),
        _ => Ok(()),
    }
}

// Adds the name of the function, where it has one.
fn of_named(from: &Function, into: &mut Vec<Text>) -> Result<(), NoMemory>
    ensures { OnOk result (into.new.items ≡ into.old.items ++ map (λ f. f.0) (named_function (out-Function from.now).name from.now)) }
{
    match &from.name {
        None => Ok(()),
        Some(name) => push_name(into, &name.name),
    }
}
