ghost use Rattle.std.specs.Prelude.{◌≡◌, ◌∷◌, map, IfOk};
ghost use Rattle.mt_syntax.specs.First.{first_of};
ghost use Rattle.mt_syntax.specs.Fold.{on_stmt, on_stmt_kind};
ghost use Rattle.mt_stage_declared.specs.Declarations.{declaration, declared, declaring};
ghost use Rattle.mt_stage_declared.specs.Repeated.{repeated};
ghost use Rattle.mt_stage_declared.specs.Twice.{first_twice, twice_in_body, twice_in_catch};

use crate::declaration::DeclarationKind;
use crate::search::Search;
use mt_syntax::{Broken, Mark, Stmt, StmtKind};
use mt_tree::Row;
use std::slice::from_ref;

// In the scope of a block, or of a body with its parameters.
pub(crate) fn body<S: Search>(
    search: &S,
    items: &Row<Stmt>,
    parameters: &[Mark],
) -> Result<Option<Broken>, S::Refusal>
    ensures { IfOk result (λ found. found ≡ first_of (twice_in_body parameters.now (map (on_stmt first_twice) items.now))) }
{
    search.in_scope(DeclarationKind::Parameter, parameters, items)
}

// In the scope of a catch and of its block.
pub(crate) fn catch<S: Search>(
    search: &S,
    handler: &Stmt,
    name: &Mark,
) -> Result<Option<Broken>, S::Refusal>
    ensures { IfOk result (λ found. found ≡ first_of (twice_in_catch name.now (on_stmt first_twice handler.now))) }
{
    caught(search, handler, name)
}

fn caught<S: Search>(search: &S, handler: &Stmt, name: &Mark) -> Result<Option<Broken>, S::Refusal>
    ensures { IfOk result (λ found. found ≡ first_of (repeated (declaration DeclarationKind.Catch name.now ∷ (declared handler.now).inside))) }
{
    caught_by_kind(search, &handler.kind, name)
}

// The grammar has blocks alone behind a catch.
fn caught_by_kind<S: Search>(
    search: &S,
    handler: &StmtKind,
    name: &Mark,
) -> Result<Option<Broken>, S::Refusal>
    ensures { IfOk result (λ found. found ≡ first_of (repeated (declaration DeclarationKind.Catch name.now ∷ (on_stmt_kind declaring handler.now).inside))) }
{
    match handler {
        StmtKind::Block(items) => search.in_scope(DeclarationKind::Catch, from_ref(name), items),
        StmtKind::Expr(_)
        | StmtKind::Var(_, _)
        | StmtKind::Function(_)
        | StmtKind::Service(_)
        | StmtKind::If(_, _, _)
        | StmtKind::While(_, _)
        | StmtKind::For(_, _, _, _)
        | StmtKind::Return(_)
        | StmtKind::Break
        | StmtKind::Continue
        | StmtKind::Throw(_)
        | StmtKind::Try(_, _, _)
        | StmtKind::Empty => Ok(None),
    }
}
