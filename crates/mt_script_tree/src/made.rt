ghost use Rattle.std.specs.Prelude.{◌≡◌, IfOk};
ghost use Rattle.mt_syntax.specs.declared.tree.ExprKind.TheOpen.{StmtKind-F};
ghost use Rattle.mt_script_tree.specs.Made as made;

use mt_syntax::{Expr, ExprKind, Stmt, StmtKind};
use mt_tree::{Boxed, NoMemory, Place, Row};
use std::alloc::Global;

// The place of what stands nowhere in a source.
const NOWHERE: Place = Place { line: 0, column: 0 };

pub(crate) fn expr_of(alloc: Global, kind: ExprKind) -> Result<Expr, NoMemory>
    ensures { IfOk result (λ e. e ≡ made.expr kind) }
{
    Ok(Expr {
        place: NOWHERE,
        kind: Boxed::new(alloc, kind)?,
    })
}

pub(crate) fn stmt_of(kind: StmtKind) -> Stmt
    ensures { result ≡ made.stmt kind }
{
    Stmt {
        place: NOWHERE,
        kind,
    }
}

pub(crate) fn block_of(items: Row<Stmt>) -> Stmt
    ensures { result ≡ made.stmt (made.stmt_kind (StmtKind-F.Block items)) }
{
    stmt_of(StmtKind::Block(items))
}
