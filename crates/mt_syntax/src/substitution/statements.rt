ghost use Rattle.std.specs.Prelude.{◌≡◌, map, option_map, IfOk};
ghost use Rattle.mt_syntax.specs.Substitution.{subst_decl, subst_for_start, subst_stmt, subst_stmt_kind};

use crate::substitution::expressions::{expr, function, value};
use crate::substitution::marks::{NOWHERE, mark};
use crate::substitution::values::push;
use crate::tree::{Decl, ForStart, Stmt, StmtKind};
use mt_tree::{Boxed, Data, NoMemory, Row};
use std::alloc::Global;

#[cycle(substitution)]
pub(crate) fn stmt(alloc: Global, from: &Stmt, values: &[Data]) -> Result<Stmt, NoMemory>
    ensures { IfOk result (λ s. s ≡ subst_stmt values.now from.now) }
{
    Ok(Stmt {
        place: NOWHERE,
        kind: stmt_kind(alloc, &from.kind, values)?,
    })
}

#[cycle(substitution)]
pub(crate) fn stmt_kind(
    alloc: Global,
    from: &StmtKind,
    values: &[Data],
) -> Result<StmtKind, NoMemory>
    ensures { IfOk result (λ k. k ≡ subst_stmt_kind values.now from.now) }
{
    match from {
        StmtKind::Expr(a) => Ok(StmtKind::Expr(expr(alloc, a, values)?)),
        StmtKind::Var(kind, items) => Ok(StmtKind::Var(*kind, decls(alloc, items, values)?)),
        StmtKind::Function(f) => Ok(StmtKind::Function(function(alloc, f, values)?)),
        StmtKind::Service(f) => Ok(StmtKind::Service(function(alloc, f, values)?)),
        StmtKind::If(a, s, other) => {
            let test = expr(alloc, a, values)?;
            let then = boxed_stmt(alloc, s, values)?;
            Ok(StmtKind::If(test, then, branch(alloc, other, values)?))
        }
        StmtKind::While(a, s) => {
            let test = expr(alloc, a, values)?;
            Ok(StmtKind::While(test, boxed_stmt(alloc, s, values)?))
        }
        StmtKind::For(a, b, c, s) => {
            let first = start(alloc, a, values)?;
            let test = value(alloc, b, values)?;
            let step = value(alloc, c, values)?;
            Ok(StmtKind::For(first, test, step, boxed_stmt(alloc, s, values)?))
        }
        StmtKind::Return(a) => Ok(StmtKind::Return(value(alloc, a, values)?)),
        StmtKind::Break => Ok(StmtKind::Break),
        StmtKind::Continue => Ok(StmtKind::Continue),
        StmtKind::Throw(a) => Ok(StmtKind::Throw(expr(alloc, a, values)?)),
        StmtKind::Try(s, at, t) => {
            let body = boxed_stmt(alloc, s, values)?;
            let name = mark(at)?;
            Ok(StmtKind::Try(body, name, boxed_stmt(alloc, t, values)?))
        }
        StmtKind::Block(items) => Ok(StmtKind::Block(stmts(alloc, items, values)?)),
        StmtKind::Empty => Ok(StmtKind::Empty),
    }
}

#[cycle(substitution)]
pub(crate) fn stmts(
    alloc: Global,
    items: &Row<Stmt>,
    values: &[Data],
) -> Result<Row<Stmt>, NoMemory>
    ensures { IfOk result (λ row. row ≡ map (subst_stmt values.now) items.now) }
{
    let mut made = Vec::new(alloc);
    for item in items.items() {
        push(&mut made, stmt(alloc, item, values)?)?;
    }
    Row::from_vec(alloc, made)
}

#[cycle(substitution)]
pub(crate) fn boxed_stmt(
    alloc: Global,
    from: &Boxed<Stmt>,
    values: &[Data],
) -> Result<Boxed<Stmt>, NoMemory>
    ensures { IfOk result (λ s. s ≡ subst_stmt values.now from.now) }
{
    let made = stmt(alloc, from.get(), values)?;
    Boxed::new(alloc, made)
}

#[cycle(substitution)]
pub(crate) fn branch(
    alloc: Global,
    from: &Option<Boxed<Stmt>>,
    values: &[Data],
) -> Result<Option<Boxed<Stmt>>, NoMemory>
    ensures { IfOk result (λ s. s ≡ option_map (subst_stmt values.now) from.now) }
{
    match from {
        None => Ok(None),
        Some(s) => {
            let made = stmt(alloc, s.get(), values)?;
            Ok(Some(Boxed::new(alloc, made)?))
        }
    }
}

#[cycle(substitution)]
pub(crate) fn start(alloc: Global, from: &ForStart, values: &[Data]) -> Result<ForStart, NoMemory>
    ensures { IfOk result (λ s. s ≡ subst_for_start values.now from.now) }
{
    match from {
        ForStart::Absent => Ok(ForStart::Absent),
        ForStart::Var(items) => Ok(ForStart::Var(decls(alloc, items, values)?)),
        ForStart::Expr(a) => Ok(ForStart::Expr(expr(alloc, a, values)?)),
    }
}

#[cycle(substitution)]
pub(crate) fn decl(alloc: Global, from: &Decl, values: &[Data]) -> Result<Decl, NoMemory>
    ensures { IfOk result (λ d. d ≡ subst_decl values.now from.now) }
{
    let name = mark(&from.name)?;
    Ok(Decl {
        name,
        value: value(alloc, &from.value, values)?,
    })
}

#[cycle(substitution)]
pub(crate) fn decls(
    alloc: Global,
    items: &Row<Decl>,
    values: &[Data],
) -> Result<Row<Decl>, NoMemory>
    ensures { IfOk result (λ row. row ≡ map (subst_decl values.now) items.now) }
{
    let mut made = Vec::new(alloc);
    for item in items.items() {
        push(&mut made, decl(alloc, item, values)?)?;
    }
    Row::from_vec(alloc, made)
}
