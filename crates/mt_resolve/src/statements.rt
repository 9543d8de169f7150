ghost use Rattle.std.specs.Prelude.{◌≡◌, [], length, IfOk};
ghost use Rattle.mt_eval_meaning.specs.Scopes.{with_lexicals};
ghost use Rattle.mt_eval_meaning.specs.Hoisting.{lexicals};
ghost use Rattle.mt_eval_meaning.specs.Runs.{Evals};
ghost use Rattle.mt_resolve.specs.Resolving as spec;
ghost use Rattle.mt_resolve_names.specs.Around.{surroundings_of};

use crate::expressions::{expr, value};
use crate::resolver::Resolver;
use mt_eval_meaning::{Decl, Exit, ForStart, Function, Stmt, Stop};
use mt_resolve_names::{Entry, Slot, sum};
use mt_syntax as syntax;
use mt_syntax::{Mark, StmtKind};
use mt_tree::{Boxed, NoMemory, Row, push};

#[cycle(resolving)]
fn stmt(
    r: &Resolver,
    depth: usize,
    functions: &mut Vec<Function>,
    scope: &[Slot],
    size: usize,
    from: &syntax::Stmt,
) -> Result<Stmt, Exit>
    ensures { Evals ((spec.at (surroundings_of r.now.around) r.now.first depth).stmt scope.now size from.now functions.old.items) result functions.new.items }
{
    if depth == 0 {
        return Err(Exit::Stop(Stop::Depth));
    }
    act(r, depth - 1, functions, scope, size, from)
}

#[cycle(resolving)]
#[tactic(auto, unfolding(crate::specs::Resolving::act))]
fn act(
    r: &Resolver,
    depth: usize,
    functions: &mut Vec<Function>,
    scope: &[Slot],
    size: usize,
    from: &syntax::Stmt,
) -> Result<Stmt, Exit>
    ensures { Evals (spec.act (surroundings_of r.now.around) r.now.first (spec.at (surroundings_of r.now.around) r.now.first depth) scope.now size from.now functions.old.items) result functions.new.items }
{
    match &from.kind {
        StmtKind::Expr(e) => Ok(Stmt::Expr(expr(r, depth, functions, scope, e)?)),
        StmtKind::Var(word, items) => {
            let us = declarations(r, depth, functions, scope, items.items())?;
            Ok(Stmt::Var(*word, us))
        }
        StmtKind::Function(_) | StmtKind::Service(_) | StmtKind::Empty => Ok(Stmt::Empty),
        StmtKind::If(e, a, b) => {
            let u = expr(r, depth, functions, scope, e)?;
            let v = boxed(r, depth, functions, scope, size, a.get())?;
            let w = branch(r, depth, functions, scope, size, b)?;
            Ok(Stmt::If(u, v, w))
        }
        StmtKind::While(e, a) => {
            let u = expr(r, depth, functions, scope, e)?;
            let v = boxed(r, depth, functions, scope, size, a.get())?;
            Ok(Stmt::While(u, v))
        }
        StmtKind::For(s, test, step, a) => {
            let u = begin(r, depth, functions, scope, s)?;
            let v = value(r, depth, functions, scope, test)?;
            let w = value(r, depth, functions, scope, step)?;
            let x = boxed(r, depth, functions, scope, size, a.get())?;
            Ok(Stmt::For(u, v, w, x))
        }
        StmtKind::Return(e) => Ok(Stmt::Return(value(r, depth, functions, scope, e)?)),
        StmtKind::Break => Ok(Stmt::Break),
        StmtKind::Continue => Ok(Stmt::Continue),
        StmtKind::Throw(e) => Ok(Stmt::Throw(expr(r, depth, functions, scope, e)?)),
        StmtKind::Try(a, name, b) => {
            let u = boxed(r, depth, functions, scope, size, a.get())?;
            let v = handler(r, depth, functions, scope, size, name, b.get())?;
            Ok(Stmt::Try(u, Boxed::new(r.alloc, v)?))
        }
        StmtKind::Block(items) => block(r, depth, functions, scope, size, items.items()),
    }
}

// The same as `stmt`, on the heap.
#[cycle(resolving)]
fn boxed(
    r: &Resolver,
    depth: usize,
    functions: &mut Vec<Function>,
    scope: &[Slot],
    size: usize,
    from: &syntax::Stmt,
) -> Result<Boxed<Stmt>, Exit>
    ensures { Evals ((spec.at (surroundings_of r.now.around) r.now.first depth).stmt scope.now size from.now functions.old.items) result functions.new.items }
{
    let u = stmt(r, depth, functions, scope, size, from)?;
    Ok(Boxed::new(r.alloc, u)?)
}

#[cycle(resolving)]
#[tactic(auto, unfolding(crate::specs::Resolving::branch))]
fn branch(
    r: &Resolver,
    depth: usize,
    functions: &mut Vec<Function>,
    scope: &[Slot],
    size: usize,
    from: &Option<Boxed<syntax::Stmt>>,
) -> Result<Option<Boxed<Stmt>>, Exit>
    ensures { Evals (spec.branch (surroundings_of r.now.around) r.now.first (spec.at (surroundings_of r.now.around) r.now.first depth) scope.now size from.now functions.old.items) result functions.new.items }
{
    match from {
        None => Ok(None),
        Some(t) => Ok(Some(boxed(r, depth, functions, scope, size, t.get())?)),
    }
}

// What was thrown is in a new slot behind the activation's.
#[cycle(resolving)]
#[tactic(auto, unfolding(crate::specs::Resolving::handler))]
fn handler(
    r: &Resolver,
    depth: usize,
    functions: &mut Vec<Function>,
    scope: &[Slot],
    size: usize,
    name: &Mark,
    from: &syntax::Stmt,
) -> Result<Stmt, Exit>
    ensures { Evals (spec.handler (surroundings_of r.now.around) r.now.first (spec.at (surroundings_of r.now.around) r.now.first depth) scope.now size name.now.name from.now functions.old.items) result functions.new.items }
{
    let mut entry = Entry::new(r.alloc, size);
    entry.bind(&name.name, false)?;
    let inner = entry.inside(r.alloc, scope)?;
    let more = sum(size, 1)?;
    stmt(r, depth, functions, inner.as_slice(), more, from)
}

// The entry of a block.
#[derive(Drop)]
struct EnteredBlock {
    entry: Entry,
    // The number of its slots.
    slots: usize,
}

// The slots of a block stand behind the activation's.
#[tactic(auto, using(crate::proofs::Blocks::slots_of_block))]
fn enter_block(r: &Resolver, size: usize, from: &[syntax::Stmt]) -> Result<EnteredBlock, NoMemory>
    ensures entry { IfOk result (λ entered. entered.entry ≡ (size, with_lexicals size (lexicals from.now) [])) }
    ensures slots { IfOk result (λ entered. entered.slots ≡ length (lexicals from.now)) }
{
    let mut entry = Entry::new(r.alloc, size);
    entry.bind_lexicals(from)?;
    let slots = entry.len();
    Ok(EnteredBlock { entry, slots })
}

#[cycle(resolving)]
#[tactic(auto, unfolding(crate::specs::Resolving::block))]
fn block(
    r: &Resolver,
    depth: usize,
    functions: &mut Vec<Function>,
    scope: &[Slot],
    size: usize,
    from: &[syntax::Stmt],
) -> Result<Stmt, Exit>
    ensures { Evals (spec.block (surroundings_of r.now.around) r.now.first (spec.at (surroundings_of r.now.around) r.now.first depth) scope.now size from.now functions.old.items) result functions.new.items }
{
    let entered = enter_block(r, size, from)?;
    let inner = entered.entry.inside(r.alloc, scope)?;
    let more = sum(size, entered.slots)?;
    let us = stmts(r, depth, functions, inner.as_slice(), more, from)?;
    Ok(Stmt::Block(entered.slots, us))
}

/// The code of each of the statements, in order. Blocks in them stand behind an activation of that size.
///
/// # Errors
/// `Stop::Depth` where a statement is deeper than `depth`, and `NoMemory`.
#[cycle(resolving)]
#[tactic(auto, unfolding(crate::specs::Resolving::stmts))]
pub fn stmts(
    r: &Resolver,
    depth: usize,
    functions: &mut Vec<Function>,
    scope: &[Slot],
    size: usize,
    from: &[syntax::Stmt],
) -> Result<Row<Stmt>, Exit>
    ensures { Evals (spec.stmts (surroundings_of r.now.around) r.now.first (spec.at (surroundings_of r.now.around) r.now.first depth) scope.now size from.entry.now functions.old.items) result functions.new.items }
{
    let mut left = from;
    let mut done = Vec::new(r.alloc);
    while let [t, rest @ ..] = left {
        push(&mut done, stmt(r, depth, functions, scope, size, t)?)?;
        left = rest;
    }
    Ok(Row::from_vec(r.alloc, done)?)
}

#[cycle(resolving)]
#[tactic(auto, unfolding(crate::specs::Resolving::begin))]
fn begin(
    r: &Resolver,
    depth: usize,
    functions: &mut Vec<Function>,
    scope: &[Slot],
    from: &syntax::ForStart,
) -> Result<ForStart, Exit>
    ensures { Evals (spec.begin (surroundings_of r.now.around) r.now.first (spec.at (surroundings_of r.now.around) r.now.first depth) scope.now from.now functions.old.items) result functions.new.items }
{
    match from {
        syntax::ForStart::Absent => Ok(ForStart::Absent),
        syntax::ForStart::Var(items) => {
            let us = declarations(r, depth, functions, scope, items.items())?;
            Ok(ForStart::Var(us))
        }
        syntax::ForStart::Expr(e) => Ok(ForStart::Expr(expr(r, depth, functions, scope, e)?)),
    }
}

#[cycle(resolving)]
#[tactic(auto, unfolding(crate::specs::Resolving::declaration, crate::specs::Resolving::value))]
fn declaration(
    r: &Resolver,
    depth: usize,
    functions: &mut Vec<Function>,
    scope: &[Slot],
    from: &syntax::Decl,
) -> Result<Decl, Exit>
    ensures { Evals (spec.declaration (surroundings_of r.now.around) r.now.first (spec.at (surroundings_of r.now.around) r.now.first depth) scope.now from.now functions.old.items) result functions.new.items }
{
    let value = value(r, depth, functions, scope, &from.value)?;
    Ok(Decl {
        name: r.around.name(scope, &from.name.name)?,
        value,
    })
}

#[cycle(resolving)]
#[tactic(auto, unfolding(crate::specs::Resolving::declarations))]
fn declarations(
    r: &Resolver,
    depth: usize,
    functions: &mut Vec<Function>,
    scope: &[Slot],
    from: &[syntax::Decl],
) -> Result<Row<Decl>, Exit>
    ensures { Evals (spec.declarations (surroundings_of r.now.around) r.now.first (spec.at (surroundings_of r.now.around) r.now.first depth) scope.now from.entry.now functions.old.items) result functions.new.items }
{
    let mut left = from;
    let mut done = Vec::new(r.alloc);
    while let [d, rest @ ..] = left {
        push(&mut done, declaration(r, depth, functions, scope, d)?)?;
        left = rest;
    }
    Ok(Row::from_vec(r.alloc, done)?)
}
