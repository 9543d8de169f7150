ghost use Rattle.std.specs.Prelude.{◌≡◌};
ghost use Rattle.mt_syntax.specs.Joining.{first};
ghost use Rattle.mt_syntax.specs.Fold.{on_expr, on_expr_kind, on_function, on_prop};
ghost use Rattle.mt_stage_placement.specs.Jumps.{finding_jumps, in_each, in_optional};

use crate::jumps::around::Around;
use crate::jumps::markup::markup;
use crate::jumps::statements::stmts;
use mt_syntax::{Broken, Expr, ExprKind, Function, Prop, earlier};
use mt_tree::Row;

#[cycle(jumps)]
pub(crate) fn expr(from: &Expr, around: Around) -> Option<Broken>
    ensures { result ≡ on_expr (finding_jumps first) from.now around }
{
    expr_kind(from.kind.get(), around.at_node(from.place))
}

#[cycle(jumps)]
pub(crate) fn expr_kind(from: &ExprKind, around: Around) -> Option<Broken>
    ensures { result ≡ on_expr_kind (finding_jumps first) from.now around }
{
    match from {
        ExprKind::Arr(items) => exprs(items, around),
        ExprKind::Obj(items) => props(items, around),
        ExprKind::Fun(f) => function(f, around),
        ExprKind::Unary(_, a) => expr(a, around),
        ExprKind::Step(_, a) => expr(a, around),
        ExprKind::Binary(_, a, b) => earlier(expr(a, around), expr(b, around)),
        ExprKind::And(a, b) => earlier(expr(a, around), expr(b, around)),
        ExprKind::Or(a, b) => earlier(expr(a, around), expr(b, around)),
        ExprKind::Cond(a, b, c) => {
            let branches = earlier(expr(b, around), expr(c, around));
            earlier(expr(a, around), branches)
        }
        ExprKind::Assign(_, a, b) => earlier(expr(a, around), expr(b, around)),
        ExprKind::Index(a, b) => earlier(expr(a, around), expr(b, around)),
        ExprKind::Call(a, arguments) => earlier(expr(a, around), exprs(arguments, around)),
        ExprKind::Stray(a) => expr(a, around),
        ExprKind::Markup(m) => markup(m, around),
        ExprKind::Name(_)
        | ExprKind::Num(_)
        | ExprKind::Text(_)
        | ExprKind::Bool(_)
        | ExprKind::Null
        | ExprKind::Undefined
        | ExprKind::Tilde(_)
        | ExprKind::Dollar(_)
        | ExprKind::Val(_) => None,
    }
}

#[cycle(jumps)]
pub(crate) fn exprs(items: &Row<Expr>, around: Around) -> Option<Broken>
    ensures { result ≡ in_each first (on_expr (finding_jumps first)) items.now around }
{
    let mut found = None;
    for item in items.items() {
        found = earlier(found, expr(item, around));
    }
    found
}

#[cycle(jumps)]
pub(crate) fn prop(from: &Prop, around: Around) -> Option<Broken>
    ensures { result ≡ on_prop (finding_jumps first) from.now around }
{
    expr(&from.value, around)
}

#[cycle(jumps)]
pub(crate) fn props(items: &Row<Prop>, around: Around) -> Option<Broken>
    ensures { result ≡ in_each first (on_prop (finding_jumps first)) items.now around }
{
    let mut found = None;
    for item in items.items() {
        found = earlier(found, prop(item, around));
    }
    found
}

#[cycle(jumps)]
pub(crate) fn function(from: &Function, around: Around) -> Option<Broken>
    ensures { result ≡ on_function (finding_jumps first) from.now around }
{
    stmts(&from.body, around.in_function())
}

#[cycle(jumps)]
pub(crate) fn value(from: &Option<Expr>, around: Around) -> Option<Broken>
    ensures { result ≡ in_optional first (on_expr (finding_jumps first)) from.now around }
{
    match from {
        None => None,
        Some(a) => expr(a, around),
    }
}
