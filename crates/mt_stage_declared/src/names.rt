ghost use Rattle.std.specs.Prelude.{◌≡◌, ◌++◌, ◌∷◌, [], map, flat_map, option_map, OnOk};
ghost use Rattle.mt_syntax.specs.Fold.{on_decl, on_for_start, on_function, on_stmt_kind};
ghost use Rattle.mt_stage_declared.specs.Declarations.{declarations, declared, declared_by_item, declared_in_file, declaring, here_in, names_in, optional_variables, variables_in};

use crate::declaration::{Declaration, DeclarationKind, declare};
use mt_syntax::{Decl, ForStart, Function, Mark, Stmt, StmtKind};
use mt_tree::{Boxed, NoMemory, Row, VarKind};

// Each of these adds, in text order, the declarations that its contract names.

/// Adds a declaration of each of the names.
///
/// # Errors
/// `NoMemory`.
pub fn declare_all(
    kind: DeclarationKind,
    from: &[Mark],
    into: &mut Vec<Declaration>,
) -> Result<(), NoMemory>
    ensures { OnOk result (into.new.items ≡ into.old.items ++ declarations kind from.now) }
{
    for mark in from {
        declare(kind, mark, into)?;
    }
    Ok(())
}

fn decl(kind: DeclarationKind, from: &Decl, into: &mut Vec<Declaration>) -> Result<(), NoMemory>
    ensures { OnOk result (into.new.items ≡ into.old.items ++ declarations kind (on_decl declaring from.now).names) }
{
    declare(kind, &from.name, into)
}

fn decls(
    kind: DeclarationKind,
    from: &Row<Decl>,
    into: &mut Vec<Declaration>,
) -> Result<(), NoMemory>
    ensures { OnOk result (into.new.items ≡ into.old.items ++ declarations kind (names_in (λ d. d) (map (on_decl declaring) from.now))) }
{
    for item in from.items() {
        decl(kind, item, into)?;
    }
    Ok(())
}

fn start(from: &ForStart, into: &mut Vec<Declaration>) -> Result<(), NoMemory>
    ensures { OnOk result (into.new.items ≡ into.old.items ++ declarations DeclarationKind.Nested (on_for_start declaring from.now).names) }
{
    match from {
        ForStart::Absent => Ok(()),
        ForStart::Var(items) => decls(DeclarationKind::Nested, items, into),
        ForStart::Expr(_a) => Ok(()),
    }
}

fn function(
    kind: DeclarationKind,
    from: &Function,
    into: &mut Vec<Declaration>,
) -> Result<(), NoMemory>
    ensures { OnOk result (into.new.items ≡ into.old.items ++ declarations kind (on_function declaring from.now).names) }
{
    match &from.name {
        None => Ok(()),
        Some(name) => declare(kind, name, into),
    }
}

#[cycle(variables)]
fn variables(from: &Stmt, into: &mut Vec<Declaration>) -> Result<(), NoMemory>
    ensures { OnOk result (into.new.items ≡ into.old.items ++ (declared from.now).variables) }
{
    variables_of_kind(&from.kind, into)
}

#[cycle(variables)]
fn variables_of_kind(from: &StmtKind, into: &mut Vec<Declaration>) -> Result<(), NoMemory>
    ensures { OnOk result (into.new.items ≡ into.old.items ++ (on_stmt_kind declaring from.now).variables) }
{
    match from {
        StmtKind::Var(VarKind::Var, items) => decls(DeclarationKind::Nested, items, into),
        StmtKind::If(_test, body, other) => {
            variables(body.get(), into)?;
            other_variables(other, into)
        }
        StmtKind::While(_test, body) => variables(body.get(), into),
        StmtKind::For(first, _test, _step, body) => {
            start(first, into)?;
            variables(body.get(), into)
        }
        StmtKind::Try(body, _name, handler) => {
            variables(body.get(), into)?;
            variables(handler.get(), into)
        }
        StmtKind::Block(items) => row_variables(items, into),
        StmtKind::Expr(_)
        | StmtKind::Var(_, _)
        | StmtKind::Function(_)
        | StmtKind::Service(_)
        | StmtKind::Return(_)
        | StmtKind::Break
        | StmtKind::Continue
        | StmtKind::Throw(_)
        | StmtKind::Empty => Ok(()),
    }
}

#[cycle(variables)]
fn other_variables(from: &Option<Boxed<Stmt>>, into: &mut Vec<Declaration>) -> Result<(), NoMemory>
    ensures { OnOk result (into.new.items ≡ into.old.items ++ optional_variables (λ d. d) (option_map declared from.now)) }
{
    match from {
        None => Ok(()),
        Some(body) => variables(body.get(), into),
    }
}

#[cycle(variables)]
fn row_variables(from: &Row<Stmt>, into: &mut Vec<Declaration>) -> Result<(), NoMemory>
    ensures { OnOk result (into.new.items ≡ into.old.items ++ variables_in (λ d. d) (map declared from.now)) }
{
    for item in from.items() {
        variables(item, into)?;
    }
    Ok(())
}

// What a statement declares where it stands, but for a service.
fn here(from: &Stmt, into: &mut Vec<Declaration>) -> Result<(), NoMemory>
    ensures { OnOk result (into.new.items ≡ into.old.items ++ (declared from.now).here) }
{
    here_of_kind(&from.kind, into)
}

fn here_of_kind(from: &StmtKind, into: &mut Vec<Declaration>) -> Result<(), NoMemory>
    ensures { OnOk result (into.new.items ≡ into.old.items ++ (on_stmt_kind declaring from.now).here) }
{
    match from {
        StmtKind::Var(VarKind::Var, items) => decls(DeclarationKind::Variable, items, into),
        StmtKind::Var(_, items) => decls(DeclarationKind::Lexical, items, into),
        StmtKind::Function(f) => function(DeclarationKind::Function, f, into),
        StmtKind::If(_, _, _)
        | StmtKind::While(_, _)
        | StmtKind::For(_, _, _, _)
        | StmtKind::Try(_, _, _)
        | StmtKind::Block(_) => variables_of_kind(from, into),
        StmtKind::Expr(_)
        | StmtKind::Service(_)
        | StmtKind::Return(_)
        | StmtKind::Break
        | StmtKind::Continue
        | StmtKind::Throw(_)
        | StmtKind::Empty => Ok(()),
    }
}

fn service(from: &Stmt, into: &mut Vec<Declaration>) -> Result<(), NoMemory>
    ensures { OnOk result (into.new.items ≡ into.old.items ++ (declared from.now).services) }
{
    service_of_kind(&from.kind, into)
}

fn service_of_kind(from: &StmtKind, into: &mut Vec<Declaration>) -> Result<(), NoMemory>
    ensures { OnOk result (into.new.items ≡ into.old.items ++ (on_stmt_kind declaring from.now).services) }
{
    match from {
        StmtKind::Service(f) => function(DeclarationKind::Service, f, into),
        StmtKind::Expr(_)
        | StmtKind::Var(_, _)
        | StmtKind::Function(_)
        | StmtKind::If(_, _, _)
        | StmtKind::While(_, _)
        | StmtKind::For(_, _, _, _)
        | StmtKind::Return(_)
        | StmtKind::Break
        | StmtKind::Continue
        | StmtKind::Throw(_)
        | StmtKind::Try(_, _, _)
        | StmtKind::Block(_)
        | StmtKind::Empty => Ok(()),
    }
}

/// Adds, in text order, what the statements of a body or block declare in it, services aside.
///
/// # Errors
/// `NoMemory`.
pub fn declared_here(from: &Row<Stmt>, into: &mut Vec<Declaration>) -> Result<(), NoMemory>
    ensures { OnOk result (into.new.items ≡ into.old.items ++ here_in (λ d. d) (map declared from.now)) }
{
    for item in from.items() {
        here(item, into)?;
    }
    Ok(())
}

/// Adds, in text order, what the items of a file declare at its top.
///
/// # Errors
/// `NoMemory`.
pub fn declared_in_file(from: &Row<Stmt>, into: &mut Vec<Declaration>) -> Result<(), NoMemory>
    ensures { OnOk result (into.new.items ≡ into.old.items ++ declared_in_file from.now) }
{
    for item in from.items() {
        item_of_file(item, into)?;
    }
    Ok(())
}

fn item_of_file(from: &Stmt, into: &mut Vec<Declaration>) -> Result<(), NoMemory>
    ensures { OnOk result (into.new.items ≡ into.old.items ++ declared_by_item from.now) }
{
    here(from, into)?;
    service(from, into)
}

// What is declared in a block; nothing where the statement is no block.
pub(crate) fn inside(from: &Stmt, into: &mut Vec<Declaration>) -> Result<(), NoMemory>
    ensures { OnOk result (into.new.items ≡ into.old.items ++ (declared from.now).inside) }
{
    inside_of_kind(&from.kind, into)
}

fn inside_of_kind(from: &StmtKind, into: &mut Vec<Declaration>) -> Result<(), NoMemory>
    ensures { OnOk result (into.new.items ≡ into.old.items ++ (on_stmt_kind declaring from.now).inside) }
{
    match from {
        StmtKind::Block(items) => declared_here(items, into),
        StmtKind::Expr(_)
        | StmtKind::Var(_, _)
        | StmtKind::Function(_)
        | StmtKind::Service(_)
        | StmtKind::If(_, _, _)
        | StmtKind::While(_, _)
        | StmtKind::For(_, _, _, _)
        | StmtKind::Return(_)
        | StmtKind::Break
        | StmtKind::Continue
        | StmtKind::Throw(_)
        | StmtKind::Try(_, _, _)
        | StmtKind::Empty => Ok(()),
    }
}
