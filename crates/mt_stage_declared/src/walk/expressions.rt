ghost use Rattle.std.specs.Prelude.{◌≡◌, map, option_map, None, IfOk};
ghost use Rattle.mt_syntax.specs.First.{earlier_of};
ghost use Rattle.mt_syntax.specs.Fold.{on_expr, on_expr_kind, on_function, on_prop};
ghost use Rattle.mt_stage_declared.specs.Parts.{found_in, optional_found};
ghost use Rattle.mt_stage_declared.specs.Twice.{first_twice};

use crate::search::Search;
use crate::walk::bodies::body;
use crate::walk::markup::markup;
use crate::walk::statements::stmts;
use mt_syntax::{Broken, Expr, ExprKind, Function, Prop, earlier};
use mt_tree::Row;

#[cycle(walk)]
pub(crate) fn expr<S: Search>(search: &S, from: &Expr) -> Result<Option<Broken>, S::Refusal>
    ensures { IfOk result (λ found. found ≡ (on_expr first_twice from.now).found) }
{
    expr_kind(search, from.kind.get())
}

#[cycle(walk)]
fn expr_kind<S: Search>(search: &S, from: &ExprKind) -> Result<Option<Broken>, S::Refusal>
    ensures { IfOk result (λ found. found ≡ (on_expr_kind first_twice from.now).found) }
{
    match from {
        ExprKind::Name(_)
        | ExprKind::Num(_)
        | ExprKind::Text(_)
        | ExprKind::Bool(_)
        | ExprKind::Null
        | ExprKind::Undefined
        | ExprKind::Tilde(_)
        | ExprKind::Dollar(_)
        | ExprKind::Val(_) => Ok(None),
        ExprKind::Arr(items) => exprs(search, items),
        ExprKind::Obj(items) => props(search, items),
        ExprKind::Fun(f) => function(search, f),
        ExprKind::Unary(_, a) | ExprKind::Step(_, a) | ExprKind::Stray(a) => expr(search, a),
        ExprKind::Binary(_, a, b)
        | ExprKind::And(a, b)
        | ExprKind::Or(a, b)
        | ExprKind::Assign(_, a, b)
        | ExprKind::Index(a, b) => {
            let left = expr(search, a)?;
            let right = expr(search, b)?;
            Ok(earlier(left, right))
        }
        ExprKind::Cond(a, b, c) => {
            let test = expr(search, a)?;
            let then = expr(search, b)?;
            let other = expr(search, c)?;
            Ok(earlier(test, earlier(then, other)))
        }
        ExprKind::Call(a, arguments) => {
            let callee = expr(search, a)?;
            let rest = exprs(search, arguments)?;
            Ok(earlier(callee, rest))
        }
        ExprKind::Markup(m) => markup(search, m),
    }
}

#[cycle(walk)]
pub(crate) fn exprs<S: Search>(search: &S, items: &Row<Expr>) -> Result<Option<Broken>, S::Refusal>
    ensures { IfOk result (λ found. found ≡ found_in None earlier_of (map (on_expr first_twice) items.now)) }
{
    let mut found = None;
    for item in items.items() {
        found = earlier(found, expr(search, item)?);
    }
    Ok(found)
}

#[cycle(walk)]
fn prop<S: Search>(search: &S, from: &Prop) -> Result<Option<Broken>, S::Refusal>
    ensures { IfOk result (λ found. found ≡ (on_prop first_twice from.now).found) }
{
    expr(search, &from.value)
}

#[cycle(walk)]
fn props<S: Search>(search: &S, items: &Row<Prop>) -> Result<Option<Broken>, S::Refusal>
    ensures { IfOk result (λ found. found ≡ found_in None earlier_of (map (on_prop first_twice) items.now)) }
{
    let mut found = None;
    for item in items.items() {
        found = earlier(found, prop(search, item)?);
    }
    Ok(found)
}

#[cycle(walk)]
pub(crate) fn function<S: Search>(search: &S, from: &Function) -> Result<Option<Broken>, S::Refusal>
    ensures { IfOk result (λ found. found ≡ (on_function first_twice from.now).found) }
{
    let own = body(search, &from.body, from.parameters.items())?;
    let inner = stmts(search, &from.body)?;
    Ok(earlier(own, inner))
}

#[cycle(walk)]
pub(crate) fn optional_expr<S: Search>(
    search: &S,
    from: &Option<Expr>,
) -> Result<Option<Broken>, S::Refusal>
    ensures { IfOk result (λ found. found ≡ optional_found None earlier_of (option_map (on_expr first_twice) from.now)) }
{
    match from {
        None => Ok(None),
        Some(a) => expr(search, a),
    }
}
