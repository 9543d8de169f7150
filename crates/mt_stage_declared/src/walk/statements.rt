ghost use Rattle.std.specs.Prelude.{◌≡◌, map, option_map, None, IfOk};
ghost use Rattle.mt_syntax.specs.First.{earlier_of};
ghost use Rattle.mt_syntax.specs.Fold.{on_decl, on_for_start, on_stmt, on_stmt_kind};
ghost use Rattle.mt_stage_declared.specs.Parts.{found_in, optional_found};
ghost use Rattle.mt_stage_declared.specs.Twice.{first_twice};

use crate::search::Search;
use crate::walk::bodies::{body, catch};
use crate::walk::expressions::{expr, function, optional_expr};
use mt_syntax::{Broken, Decl, ForStart, Stmt, StmtKind, earlier};
use mt_tree::{Boxed, Row};

#[cycle(walk)]
fn stmt<S: Search>(search: &S, from: &Stmt) -> Result<Option<Broken>, S::Refusal>
    ensures { IfOk result (λ found. found ≡ (on_stmt first_twice from.now).found) }
{
    stmt_kind(search, &from.kind)
}

#[cycle(walk)]
fn stmt_kind<S: Search>(search: &S, from: &StmtKind) -> Result<Option<Broken>, S::Refusal>
    ensures { IfOk result (λ found. found ≡ (on_stmt_kind first_twice from.now).found) }
{
    match from {
        StmtKind::Expr(a) => expr(search, a),
        StmtKind::Var(_word, items) => decls(search, items),
        StmtKind::Function(f) => function(search, f),
        StmtKind::Service(f) => function(search, f),
        StmtKind::If(a, then, other) => {
            let test = expr(search, a)?;
            let first = stmt(search, then.get())?;
            let second = branch(search, other)?;
            Ok(earlier(test, earlier(first, second)))
        }
        StmtKind::While(a, inner) => {
            let test = expr(search, a)?;
            let rest = stmt(search, inner.get())?;
            Ok(earlier(test, rest))
        }
        StmtKind::For(a, b, c, inner) => {
            let first = start(search, a)?;
            let test = optional_expr(search, b)?;
            let step = optional_expr(search, c)?;
            let rest = stmt(search, inner.get())?;
            Ok(earlier(first, earlier(test, earlier(step, rest))))
        }
        StmtKind::Return(a) => optional_expr(search, a),
        StmtKind::Throw(a) => expr(search, a),
        StmtKind::Try(first, name, handler) => {
            let inner = stmt(search, first.get())?;
            let own = catch(search, handler.get(), name)?;
            let rest = stmt(search, handler.get())?;
            Ok(earlier(inner, earlier(own, rest)))
        }
        StmtKind::Block(items) => {
            let own = body(search, items, &[])?;
            let inner = stmts(search, items)?;
            Ok(earlier(own, inner))
        }
        StmtKind::Break | StmtKind::Continue | StmtKind::Empty => Ok(None),
    }
}

#[cycle(walk)]
pub(crate) fn stmts<S: Search>(search: &S, items: &Row<Stmt>) -> Result<Option<Broken>, S::Refusal>
    ensures { IfOk result (λ found. found ≡ found_in None earlier_of (map (on_stmt first_twice) items.now)) }
{
    let mut found = None;
    for item in items.items() {
        found = earlier(found, stmt(search, item)?);
    }
    Ok(found)
}

#[cycle(walk)]
fn branch<S: Search>(search: &S, from: &Option<Boxed<Stmt>>) -> Result<Option<Broken>, S::Refusal>
    ensures { IfOk result (λ found. found ≡ optional_found None earlier_of (option_map (on_stmt first_twice) from.now)) }
{
    match from {
        None => Ok(None),
        Some(s) => stmt(search, s.get()),
    }
}

#[cycle(walk)]
fn start<S: Search>(search: &S, from: &ForStart) -> Result<Option<Broken>, S::Refusal>
    ensures { IfOk result (λ found. found ≡ (on_for_start first_twice from.now).found) }
{
    match from {
        ForStart::Absent => Ok(None),
        ForStart::Var(items) => decls(search, items),
        ForStart::Expr(a) => expr(search, a),
    }
}

#[cycle(walk)]
fn decl<S: Search>(search: &S, from: &Decl) -> Result<Option<Broken>, S::Refusal>
    ensures { IfOk result (λ found. found ≡ (on_decl first_twice from.now).found) }
{
    optional_expr(search, &from.value)
}

#[cycle(walk)]
fn decls<S: Search>(search: &S, items: &Row<Decl>) -> Result<Option<Broken>, S::Refusal>
    ensures { IfOk result (λ found. found ≡ found_in None earlier_of (map (on_decl first_twice) items.now)) }
{
    let mut found = None;
    for item in items.items() {
        found = earlier(found, decl(search, item)?);
    }
    Ok(found)
}
