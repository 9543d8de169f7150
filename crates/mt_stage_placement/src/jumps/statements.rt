ghost use Rattle.std.specs.Prelude.{◌≡◌};
ghost use Rattle.mt_syntax.specs.Joining.{first};
ghost use Rattle.mt_syntax.specs.Fold.{on_decl, on_for_start, on_stmt, on_stmt_kind};
ghost use Rattle.mt_stage_placement.specs.Jumps.{finding_jumps, in_each, in_optional};

use crate::jumps::around::Around;
use crate::jumps::expressions::{expr, function, value};
use mt_syntax::{Broken, Decl, ForStart, Stmt, StmtKind, earlier};
use mt_tree::{Boxed, Row};

#[cycle(jumps)]
pub(crate) fn stmt(from: &Stmt, around: Around) -> Option<Broken>
    ensures { result ≡ on_stmt (finding_jumps first) from.now around }
{
    stmt_kind(&from.kind, around.at_node(from.place))
}

#[cycle(jumps)]
pub(crate) fn stmt_kind(from: &StmtKind, around: Around) -> Option<Broken>
    ensures { result ≡ on_stmt_kind (finding_jumps first) from.now around }
{
    match from {
        StmtKind::Return(a) => {
            let here = around.broken_unless(around.function);
            earlier(here, value(a, around))
        }
        StmtKind::Break => around.broken_unless(around.repeated),
        StmtKind::Continue => around.broken_unless(around.repeated),
        StmtKind::While(a, s) => earlier(expr(a, around), stmt(s.get(), around.in_loop())),
        StmtKind::For(a, b, c, s) => {
            let body = stmt(s.get(), around.in_loop());
            let step = earlier(value(c, around), body);
            let test = earlier(value(b, around), step);
            earlier(start(a, around), test)
        }
        StmtKind::Expr(a) => expr(a, around),
        StmtKind::Var(_, items) => decls(items, around),
        StmtKind::Function(f) => function(f, around),
        StmtKind::Service(f) => function(f, around),
        StmtKind::If(a, s, other) => {
            let branches = earlier(stmt(s.get(), around), branch(other, around));
            earlier(expr(a, around), branches)
        }
        StmtKind::Throw(a) => expr(a, around),
        StmtKind::Try(s, _, t) => earlier(stmt(s.get(), around), stmt(t.get(), around)),
        StmtKind::Block(items) => stmts(items, around),
        StmtKind::Empty => None,
    }
}

#[cycle(jumps)]
pub(crate) fn stmts(items: &Row<Stmt>, around: Around) -> Option<Broken>
    ensures { result ≡ in_each first (on_stmt (finding_jumps first)) items.now around }
{
    let mut found = None;
    for item in items.items() {
        found = earlier(found, stmt(item, around));
    }
    found
}

#[cycle(jumps)]
pub(crate) fn branch(from: &Option<Boxed<Stmt>>, around: Around) -> Option<Broken>
    ensures { result ≡ in_optional first (on_stmt (finding_jumps first)) from.now around }
{
    match from {
        None => None,
        Some(s) => stmt(s.get(), around),
    }
}

#[cycle(jumps)]
pub(crate) fn start(from: &ForStart, around: Around) -> Option<Broken>
    ensures { result ≡ on_for_start (finding_jumps first) from.now around }
{
    match from {
        ForStart::Absent => None,
        ForStart::Var(items) => decls(items, around),
        ForStart::Expr(a) => expr(a, around),
    }
}

#[cycle(jumps)]
pub(crate) fn decl(from: &Decl, around: Around) -> Option<Broken>
    ensures { result ≡ on_decl (finding_jumps first) from.now around }
{
    value(&from.value, around)
}

#[cycle(jumps)]
pub(crate) fn decls(items: &Row<Decl>, around: Around) -> Option<Broken>
    ensures { result ≡ in_each first (on_decl (finding_jumps first)) items.now around }
{
    let mut found = None;
    for item in items.items() {
        found = earlier(found, decl(item, around));
    }
    found
}
