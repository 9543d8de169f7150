ghost use Rattle.mt_eval_meaning.specs.Runs.{Evals};
ghost use Rattle.mt_resolve.specs.Resolving as spec;
ghost use Rattle.mt_resolve_names.specs.Around.{surroundings_of};

use crate::bodies::{function, own_name};
use crate::markup::{attributes, children};
use crate::resolver::Resolver;
use mt_eval_meaning::{Entry, Exit, Expr, Function, Stop};
use mt_resolve_names::Slot;
use mt_syntax as syntax;
use mt_syntax::{ExprKind, Prop};
use mt_tree::{Boxed, Row, push};

#[cycle(resolving)]
pub fn expr(
    r: &Resolver,
    depth: usize,
    functions: &mut Vec<Function>,
    scope: &[Slot],
    from: &syntax::Expr,
) -> Result<Expr, Exit>
    ensures { Evals ((spec.at (surroundings_of r.now.around) r.now.first depth).expr scope.now from.now functions.old.items) result functions.new.items }
{
    if depth == 0 {
        return Err(Exit::Stop(Stop::Depth));
    }
    node(r, depth - 1, functions, scope, from)
}

#[cycle(resolving)]
#[tactic(auto, unfolding(crate::specs::Resolving::node))]
fn node(
    r: &Resolver,
    depth: usize,
    functions: &mut Vec<Function>,
    scope: &[Slot],
    from: &syntax::Expr,
) -> Result<Expr, Exit>
    ensures { Evals (spec.node (surroundings_of r.now.around) r.now.first (spec.at (surroundings_of r.now.around) r.now.first depth) scope.now from.now functions.old.items) result functions.new.items }
{
    match from.kind.get() {
        ExprKind::Name(text) => Ok(Expr::Name(r.around.name(scope, text)?)),
        ExprKind::Num(n) => Ok(Expr::Num(*n)),
        ExprKind::Text(text) => Ok(Expr::Text(text.share()?)),
        ExprKind::Bool(b) => Ok(Expr::Bool(*b)),
        ExprKind::Null => Ok(Expr::Null),
        ExprKind::Undefined | ExprKind::Dollar(_) | ExprKind::Stray(_) => Ok(Expr::Undefined),
        ExprKind::Arr(items) => Ok(Expr::Arr(exprs(r, depth, functions, scope, items.items())?)),
        ExprKind::Obj(items) => Ok(Expr::Obj(entries(r, depth, functions, scope, items.items())?)),
        ExprKind::Fun(f) => {
            let own = own_name(f)?;
            Ok(Expr::Fun(function(r, depth, functions, scope, &own, f)?))
        }
        ExprKind::Unary(op, a) => {
            let u = boxed(r, depth, functions, scope, a)?;
            Ok(Expr::Unary(*op, u))
        }
        ExprKind::Step(kind, a) => {
            let u = boxed(r, depth, functions, scope, a)?;
            Ok(Expr::Step(*kind, u))
        }
        ExprKind::Binary(op, a, b) => {
            let u = boxed(r, depth, functions, scope, a)?;
            let v = boxed(r, depth, functions, scope, b)?;
            Ok(Expr::Binary(*op, u, v))
        }
        ExprKind::And(a, b) => {
            let u = boxed(r, depth, functions, scope, a)?;
            let v = boxed(r, depth, functions, scope, b)?;
            Ok(Expr::And(u, v))
        }
        ExprKind::Or(a, b) => {
            let u = boxed(r, depth, functions, scope, a)?;
            let v = boxed(r, depth, functions, scope, b)?;
            Ok(Expr::Or(u, v))
        }
        ExprKind::Cond(a, b, c) => {
            let u = boxed(r, depth, functions, scope, a)?;
            let v = boxed(r, depth, functions, scope, b)?;
            let w = boxed(r, depth, functions, scope, c)?;
            Ok(Expr::Cond(u, v, w))
        }
        ExprKind::Assign(op, a, b) => {
            let u = boxed(r, depth, functions, scope, a)?;
            let v = boxed(r, depth, functions, scope, b)?;
            Ok(Expr::Assign(*op, u, v))
        }
        ExprKind::Index(a, b) => {
            let u = boxed(r, depth, functions, scope, a)?;
            let v = boxed(r, depth, functions, scope, b)?;
            Ok(Expr::Index(u, v))
        }
        ExprKind::Call(a, arguments) => {
            let u = boxed(r, depth, functions, scope, a)?;
            let us = exprs(r, depth, functions, scope, arguments.items())?;
            Ok(Expr::Call(u, us))
        }
        ExprKind::Tilde(id) => {
            let us = exprs(r, depth, functions, scope, r.around.dollars(*id))?;
            Ok(Expr::Tilde(*id, us))
        }
        ExprKind::Markup(m) => {
            let named = attributes(r, depth, functions, scope, m.attributes.items())?;
            let cs = children(r, depth, functions, scope, m.children.items())?;
            Ok(Expr::Element(m.tag.share()?, named, cs))
        }
        ExprKind::Val(datum) => Ok(Expr::Val(datum.share()?)),
    }
}

// The same as `expr`, on the heap.
#[cycle(resolving)]
fn boxed(
    r: &Resolver,
    depth: usize,
    functions: &mut Vec<Function>,
    scope: &[Slot],
    from: &syntax::Expr,
) -> Result<Boxed<Expr>, Exit>
    ensures { Evals ((spec.at (surroundings_of r.now.around) r.now.first depth).expr scope.now from.now functions.old.items) result functions.new.items }
{
    let u = expr(r, depth, functions, scope, from)?;
    Ok(Boxed::new(r.alloc, u)?)
}

#[cycle(resolving)]
#[tactic(auto, unfolding(crate::specs::Resolving::value))]
pub fn value(
    r: &Resolver,
    depth: usize,
    functions: &mut Vec<Function>,
    scope: &[Slot],
    from: &Option<syntax::Expr>,
) -> Result<Option<Expr>, Exit>
    ensures { Evals (spec.value (surroundings_of r.now.around) r.now.first (spec.at (surroundings_of r.now.around) r.now.first depth) scope.now from.now functions.old.items) result functions.new.items }
{
    match from {
        None => Ok(None),
        Some(e) => Ok(Some(expr(r, depth, functions, scope, e)?)),
    }
}

#[cycle(resolving)]
#[tactic(auto, unfolding(crate::specs::Resolving::exprs))]
fn exprs(
    r: &Resolver,
    depth: usize,
    functions: &mut Vec<Function>,
    scope: &[Slot],
    from: &[syntax::Expr],
) -> Result<Row<Expr>, Exit>
    ensures { Evals (spec.exprs (surroundings_of r.now.around) r.now.first (spec.at (surroundings_of r.now.around) r.now.first depth) scope.now from.entry.now functions.old.items) result functions.new.items }
{
    let mut left = from;
    let mut done = Vec::new(r.alloc);
    while let [e, rest @ ..] = left {
        push(&mut done, expr(r, depth, functions, scope, e)?)?;
        left = rest;
    }
    Ok(Row::from_vec(r.alloc, done)?)
}

#[cycle(resolving)]
#[tactic(auto, unfolding(crate::specs::Resolving::entry))]
fn entry(
    r: &Resolver,
    depth: usize,
    functions: &mut Vec<Function>,
    scope: &[Slot],
    from: &Prop,
) -> Result<Entry, Exit>
    ensures { Evals (spec.entry (surroundings_of r.now.around) r.now.first (spec.at (surroundings_of r.now.around) r.now.first depth) scope.now from.now functions.old.items) result functions.new.items }
{
    let value = expr(r, depth, functions, scope, &from.value)?;
    Ok(Entry {
        name: from.name.share()?,
        value,
    })
}

#[cycle(resolving)]
#[tactic(auto, unfolding(crate::specs::Resolving::entries))]
fn entries(
    r: &Resolver,
    depth: usize,
    functions: &mut Vec<Function>,
    scope: &[Slot],
    from: &[Prop],
) -> Result<Row<Entry>, Exit>
    ensures { Evals (spec.entries (surroundings_of r.now.around) r.now.first (spec.at (surroundings_of r.now.around) r.now.first depth) scope.now from.entry.now functions.old.items) result functions.new.items }
{
    let mut left = from;
    let mut done = Vec::new(r.alloc);
    while let [q, rest @ ..] = left {
        push(&mut done, entry(r, depth, functions, scope, q)?)?;
        left = rest;
    }
    Ok(Row::from_vec(r.alloc, done)?)
}
