ghost use Rattle.std.specs.Prelude.{◌≡◌, map, option_map, IfOk};
ghost use Rattle.mt_eval_meaning.specs.Free as spec;
ghost use Rattle.mt_eval_meaning.specs.Free.{finding};
ghost use Rattle.mt_resolve_free.specs.Tildes.{names_at};
ghost use Rattle.mt_syntax.specs.Fold.{on_decl, on_for_start, on_stmt, on_stmt_kind};
ghost use Rattle.mt_syntax.specs.Gathering.{all_of, or_none};

use crate::used::Used;
use crate::walk::expressions::{expr, function, optional_expr};
use mt_syntax::{Decl, ForStart, Stmt, StmtKind};
use mt_tree::{Boxed, NoMemory, Row, Text, push};
use std::alloc::Global;

#[cycle(walk)]
fn stmt(alloc: Global, tildes: &[Row<Text>], from: &Stmt) -> Result<Used, NoMemory>
    ensures { IfOk result (λ used. used ≡ on_stmt (finding (names_at tildes.now)) from.now) }
{
    stmt_kind(alloc, tildes, &from.kind)
}

#[cycle(walk)]
fn stmt_kind(alloc: Global, tildes: &[Row<Text>], from: &StmtKind) -> Result<Used, NoMemory>
    ensures { IfOk result (λ used. used ≡ on_stmt_kind (finding (names_at tildes.now)) from.now) }
{
    match from {
        StmtKind::Expr(a) | StmtKind::Throw(a) => Ok(expr(alloc, tildes, a)?.enclosed(alloc)),
        StmtKind::Var(word, items) => {
            Ok(decls(alloc, tildes, items.items())?.declared_by(alloc, *word))
        }
        StmtKind::Function(f) => function(alloc, tildes, f),
        StmtKind::If(a, then, other) => {
            let test = expr(alloc, tildes, a)?;
            let body = stmt(alloc, tildes, then.get())?;
            let rest = branch(alloc, tildes, other)?;
            Used::of_if(alloc, test, body, rest)
        }
        StmtKind::While(a, inner) => {
            let test = expr(alloc, tildes, a)?;
            let body = stmt(alloc, tildes, inner.get())?;
            Ok(test.joined(body)?.enclosed(alloc))
        }
        StmtKind::For(a, b, c, inner) => {
            let begin = start(alloc, tildes, a)?;
            let test = optional_expr(alloc, tildes, b)?;
            let step = optional_expr(alloc, tildes, c)?;
            let body = stmt(alloc, tildes, inner.get())?;
            Used::of_for(alloc, begin, test, step, body)
        }
        StmtKind::Return(a) => Ok(optional_expr(alloc, tildes, a)?.enclosed(alloc)),
        StmtKind::Try(first, name, then) => {
            let body = stmt(alloc, tildes, first.get())?;
            let handler = stmt(alloc, tildes, then.get())?;
            body.enclosed(alloc)
                .joined(handler.in_handler(alloc, &name.name)?)
        }
        StmtKind::Block(items) => stmts(alloc, tildes, items.items())?.in_block(alloc),
        StmtKind::Service(_) | StmtKind::Break | StmtKind::Continue | StmtKind::Empty => {
            Ok(Used::none(alloc))
        }
    }
}

#[cycle(walk)]
pub(crate) fn stmts(alloc: Global, tildes: &[Row<Text>], items: &[Stmt]) -> Result<Used, NoMemory>
    ensures { IfOk result (λ used. used ≡ all_of spec.none spec.joined (map (on_stmt (finding (names_at tildes.now))) items.now)) }
{
    let mut each = Vec::new(alloc);
    for item in items {
        push(&mut each, stmt(alloc, tildes, item)?)?;
    }
    Used::all(alloc, each)
}

#[cycle(walk)]
fn branch(alloc: Global, tildes: &[Row<Text>], from: &Option<Boxed<Stmt>>) -> Result<Used, NoMemory>
    ensures { IfOk result (λ used. used ≡ or_none spec.none spec.joined (option_map (on_stmt (finding (names_at tildes.now))) from.now)) }
{
    match from {
        None => Ok(Used::none(alloc)),
        Some(s) => stmt(alloc, tildes, s.get()),
    }
}

#[cycle(walk)]
fn start(alloc: Global, tildes: &[Row<Text>], from: &ForStart) -> Result<Used, NoMemory>
    ensures { IfOk result (λ used. used ≡ on_for_start (finding (names_at tildes.now)) from.now) }
{
    match from {
        ForStart::Absent => Ok(Used::none(alloc)),
        ForStart::Var(items) => decls(alloc, tildes, items.items()),
        ForStart::Expr(a) => expr(alloc, tildes, a),
    }
}

#[cycle(walk)]
fn decl(alloc: Global, tildes: &[Row<Text>], from: &Decl) -> Result<Used, NoMemory>
    ensures { IfOk result (λ used. used ≡ on_decl (finding (names_at tildes.now)) from.now) }
{
    let value = optional_expr(alloc, tildes, &from.value)?;
    Used::declared(alloc, &from.name.name, value)
}

#[cycle(walk)]
fn decls(alloc: Global, tildes: &[Row<Text>], items: &[Decl]) -> Result<Used, NoMemory>
    ensures { IfOk result (λ used. used ≡ all_of spec.none spec.joined (map (on_decl (finding (names_at tildes.now))) items.now)) }
{
    let mut each = Vec::new(alloc);
    for item in items {
        push(&mut each, decl(alloc, tildes, item)?)?;
    }
    Used::all(alloc, each)
}
