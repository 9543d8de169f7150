ghost use Rattle.std.specs.Prelude.{◌≡◌, ◌∷◌, ◌++◌, map, option_map, OnOk};
ghost use Rattle.mt_syntax.specs.Fold.{on_decl, on_for_start, on_stmt, on_stmt_kind};
ghost use Rattle.mt_stage_declared.specs.Parts.{optional_found};
ghost use Rattle.mt_stage_scopes.specs.Bound.{within};
ghost use Rattle.mt_stage_scopes.specs.Sites.{catch_scope, joined, nowhere, sites, sites_in};

use crate::around::Around;
use crate::site::Site;
use crate::sites::expressions::{expr, function, optional_expr};
use crate::sites::scopes::{block_scope, catch_scope};
use mt_syntax::{Decl, ForStart, Mark, Stmt, StmtKind};
use mt_tree::{Boxed, NoMemory, Row};
use std::alloc::Global;

#[cycle(sites)]
fn stmt(alloc: Global, from: &Stmt, around: &Around, into: &mut Vec<Site>) -> Result<(), NoMemory>
    ensures { OnOk result (into.new.items ≡ into.old.items ++ (on_stmt sites from.now).found.sites around.now) }
{
    stmt_kind(alloc, &from.kind, around, into)
}

#[cycle(sites)]
fn stmt_kind(
    alloc: Global,
    from: &StmtKind,
    around: &Around,
    into: &mut Vec<Site>,
) -> Result<(), NoMemory>
    ensures { OnOk result (into.new.items ≡ into.old.items ++ (on_stmt_kind sites from.now).found.sites around.now) }
{
    match from {
        StmtKind::Expr(a) | StmtKind::Throw(a) => expr(alloc, a, around, into),
        StmtKind::Var(_word, items) => decls(alloc, items, around, into),
        StmtKind::Function(f) | StmtKind::Service(f) => function(alloc, f, around, into),
        StmtKind::If(a, then, other) => {
            expr(alloc, a, around, into)?;
            stmt(alloc, then.get(), around, into)?;
            branch(alloc, other, around, into)
        }
        StmtKind::While(a, inner) => {
            expr(alloc, a, around, into)?;
            stmt(alloc, inner.get(), around, into)
        }
        StmtKind::For(a, b, c, inner) => {
            start(alloc, a, around, into)?;
            optional_expr(alloc, b, around, into)?;
            optional_expr(alloc, c, around, into)?;
            stmt(alloc, inner.get(), around, into)
        }
        StmtKind::Return(a) => optional_expr(alloc, a, around, into),
        StmtKind::Try(first, name, then) => {
            stmt(alloc, first.get(), around, into)?;
            handler(alloc, then.get(), name, around, into)
        }
        StmtKind::Block(items) => {
            let inner = around.within(alloc, block_scope(alloc, items)?)?;
            stmts(alloc, items, &inner, into)
        }
        StmtKind::Break | StmtKind::Continue | StmtKind::Empty => Ok(()),
    }
}

#[cycle(sites)]
fn handler(
    alloc: Global,
    from: &Stmt,
    name: &Mark,
    around: &Around,
    into: &mut Vec<Site>,
) -> Result<(), NoMemory>
    ensures { OnOk result (into.new.items ≡ into.old.items ++ (on_stmt sites from.now).found.sites (within (catch_scope name.now) around.now)) }
{
    let inner = around.within(alloc, catch_scope(alloc, name)?)?;
    stmt(alloc, from, &inner, into)
}

#[cycle(sites)]
pub(crate) fn stmts(
    alloc: Global,
    items: &Row<Stmt>,
    around: &Around,
    into: &mut Vec<Site>,
) -> Result<(), NoMemory>
    ensures { OnOk result (into.new.items ≡ into.old.items ++ sites_in (map (on_stmt sites) items.now) around.now) }
{
    for item in items.items() {
        stmt(alloc, item, around, into)?;
    }
    Ok(())
}

#[cycle(sites)]
fn branch(
    alloc: Global,
    from: &Option<Boxed<Stmt>>,
    around: &Around,
    into: &mut Vec<Site>,
) -> Result<(), NoMemory>
    ensures { OnOk result (into.new.items ≡ into.old.items ++ (optional_found nowhere joined (option_map (on_stmt sites) from.now)).sites around.now) }
{
    match from {
        None => Ok(()),
        Some(s) => stmt(alloc, s.get(), around, into),
    }
}

#[cycle(sites)]
fn start(
    alloc: Global,
    from: &ForStart,
    around: &Around,
    into: &mut Vec<Site>,
) -> Result<(), NoMemory>
    ensures { OnOk result (into.new.items ≡ into.old.items ++ (on_for_start sites from.now).found.sites around.now) }
{
    match from {
        ForStart::Absent => Ok(()),
        ForStart::Var(items) => decls(alloc, items, around, into),
        ForStart::Expr(a) => expr(alloc, a, around, into),
    }
}

#[cycle(sites)]
fn decl(alloc: Global, from: &Decl, around: &Around, into: &mut Vec<Site>) -> Result<(), NoMemory>
    ensures { OnOk result (into.new.items ≡ into.old.items ++ (on_decl sites from.now).found.sites around.now) }
{
    optional_expr(alloc, &from.value, around, into)
}

#[cycle(sites)]
fn decls(
    alloc: Global,
    items: &Row<Decl>,
    around: &Around,
    into: &mut Vec<Site>,
) -> Result<(), NoMemory>
    ensures { OnOk result (into.new.items ≡ into.old.items ++ sites_in (map (on_decl sites) items.now) around.now) }
{
    for item in items.items() {
        decl(alloc, item, around, into)?;
    }
    Ok(())
}
