ghost use Rattle.std.specs.Prelude.{◌≡◌, IfOk};
ghost use Rattle.mt_syntax.specs.Joining.{first};
ghost use Rattle.mt_syntax.specs.Fold.{on_decl, on_for_start, on_stmt, on_stmt_kind};
ghost use Rattle.mt_stage_placement.specs.Forms.{finding_forms, in_each, in_optional};

use crate::forms::expressions::{expr, function, value};
use crate::forms::site::{Scene, Site, broken_if};
use mt_syntax::{Broken, Decl, ForStart, Rule, Stmt, StmtKind, earlier};
use mt_tree::{Boxed, NoMemory, Row};
use std::alloc::Global;

#[cycle(forms)]
pub(crate) fn stmt(alloc: Global, from: &Stmt, site: Site) -> Result<Option<Broken>, NoMemory>
    ensures { IfOk result (λ found. found ≡ (on_stmt (finding_forms first) from.now).found site) }
{
    stmt_kind(alloc, &from.kind, site.at_node(from.place))
}

#[cycle(forms)]
pub(crate) fn stmt_kind(
    alloc: Global,
    from: &StmtKind,
    site: Site,
) -> Result<Option<Broken>, NoMemory>
    ensures { IfOk result (λ found. found ≡ (on_stmt_kind (finding_forms first) from.now).found site) }
{
    let below = site.below();
    match from {
        StmtKind::Service(f) => {
            let here = broken_if(site.scene != Scene::Top, Rule::S3, site.place);
            Ok(earlier(here, function(alloc, f, below)?))
        }
        StmtKind::Expr(a) => expr(alloc, a, below),
        StmtKind::Var(_, items) => decls(alloc, items, below),
        StmtKind::Function(f) => function(alloc, f, below),
        StmtKind::If(a, s, other) => {
            let test = expr(alloc, a, below)?;
            let then = stmt(alloc, s.get(), below)?;
            let branches = earlier(then, branch(alloc, other, below)?);
            Ok(earlier(test, branches))
        }
        StmtKind::While(a, s) => {
            let test = expr(alloc, a, below)?;
            Ok(earlier(test, stmt(alloc, s.get(), below)?))
        }
        StmtKind::For(a, b, c, s) => {
            let first = start(alloc, a, below)?;
            let test = value(alloc, b, below)?;
            let step = value(alloc, c, below)?;
            let body = earlier(step, stmt(alloc, s.get(), below)?);
            Ok(earlier(first, earlier(test, body)))
        }
        StmtKind::Return(a) => value(alloc, a, below),
        StmtKind::Throw(a) => expr(alloc, a, below),
        StmtKind::Try(s, _, t) => {
            let body = stmt(alloc, s.get(), below)?;
            Ok(earlier(body, stmt(alloc, t.get(), below)?))
        }
        StmtKind::Block(items) => stmts(alloc, items, below),
        StmtKind::Break | StmtKind::Continue | StmtKind::Empty => Ok(None),
    }
}

#[cycle(forms)]
pub(crate) fn stmts(
    alloc: Global,
    items: &Row<Stmt>,
    site: Site,
) -> Result<Option<Broken>, NoMemory>
    ensures { IfOk result (λ found. found ≡ in_each first (on_stmt (finding_forms first)) items.now site) }
{
    let mut found = None;
    for item in items.items() {
        found = earlier(found, stmt(alloc, item, site)?);
    }
    Ok(found)
}

#[cycle(forms)]
pub(crate) fn branch(
    alloc: Global,
    from: &Option<Boxed<Stmt>>,
    site: Site,
) -> Result<Option<Broken>, NoMemory>
    ensures { IfOk result (λ found. found ≡ in_optional first (on_stmt (finding_forms first)) from.now site) }
{
    match from {
        None => Ok(None),
        Some(s) => stmt(alloc, s.get(), site),
    }
}

#[cycle(forms)]
pub(crate) fn start(alloc: Global, from: &ForStart, site: Site) -> Result<Option<Broken>, NoMemory>
    ensures { IfOk result (λ found. found ≡ (on_for_start (finding_forms first) from.now).found site) }
{
    match from {
        ForStart::Absent => Ok(None),
        ForStart::Var(items) => decls(alloc, items, site),
        ForStart::Expr(a) => expr(alloc, a, site),
    }
}

#[cycle(forms)]
pub(crate) fn decl(alloc: Global, from: &Decl, site: Site) -> Result<Option<Broken>, NoMemory>
    ensures { IfOk result (λ found. found ≡ (on_decl (finding_forms first) from.now).found site) }
{
    value(alloc, &from.value, site)
}

#[cycle(forms)]
pub(crate) fn decls(
    alloc: Global,
    items: &Row<Decl>,
    site: Site,
) -> Result<Option<Broken>, NoMemory>
    ensures { IfOk result (λ found. found ≡ in_each first (on_decl (finding_forms first)) items.now site) }
{
    let mut found = None;
    for item in items.items() {
        found = earlier(found, decl(alloc, item, site)?);
    }
    Ok(found)
}
