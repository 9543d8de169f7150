ghost use Rattle.std.specs.Prelude.{◌≡◌, IfOk};
ghost use Rattle.mt_syntax.specs.Joining.{first};
ghost use Rattle.mt_syntax.specs.Fold.{on_expr, on_expr_kind, on_function, on_prop};
ghost use Rattle.mt_stage_placement.specs.Forms.{finding_forms, in_each, in_optional};

use crate::forms::markup::markup;
use crate::forms::site::{Scene, Site, broken_if};
use crate::forms::statements::stmts;
use mt_syntax::{Broken, Expr, ExprKind, Function, Prop, Rule, earlier};
use mt_tree::{NoMemory, Row};
use std::alloc::Global;

#[cycle(forms)]
pub(crate) fn expr(alloc: Global, from: &Expr, site: Site) -> Result<Option<Broken>, NoMemory>
    ensures { IfOk result (λ found. found ≡ (on_expr (finding_forms first) from.now).found site) }
{
    expr_kind(alloc, from.kind.get(), site.at_node(from.place))
}

#[cycle(forms)]
pub(crate) fn expr_kind(
    alloc: Global,
    from: &ExprKind,
    site: Site,
) -> Result<Option<Broken>, NoMemory>
    ensures { IfOk result (λ found. found ≡ (on_expr_kind (finding_forms first) from.now).found site) }
{
    match from {
        ExprKind::Tilde(_) => {
            let fails = site.scene == Scene::Client;
            Ok(broken_if(fails, Rule::S2, site.place))
        }
        ExprKind::Stray(a) => {
            let here = broken_if(true, Rule::S1, site.place);
            Ok(earlier(here, expr(alloc, a, site.in_dollar())?))
        }
        ExprKind::Markup(m) => {
            let here = broken_if(site.scene == Scene::Client, Rule::S4, site.place);
            Ok(earlier(here, markup(alloc, m, site)?))
        }
        ExprKind::Arr(items) => exprs(alloc, items, site),
        ExprKind::Obj(items) => props(alloc, items, site),
        ExprKind::Fun(f) => function(alloc, f, site),
        ExprKind::Unary(_, a) => expr(alloc, a, site),
        ExprKind::Step(_, a) => expr(alloc, a, site),
        ExprKind::Binary(_, a, b) => {
            let left = expr(alloc, a, site)?;
            Ok(earlier(left, expr(alloc, b, site)?))
        }
        ExprKind::And(a, b) => {
            let left = expr(alloc, a, site)?;
            Ok(earlier(left, expr(alloc, b, site)?))
        }
        ExprKind::Or(a, b) => {
            let left = expr(alloc, a, site)?;
            Ok(earlier(left, expr(alloc, b, site)?))
        }
        ExprKind::Cond(a, b, c) => {
            let test = expr(alloc, a, site)?;
            let then = expr(alloc, b, site)?;
            let branches = earlier(then, expr(alloc, c, site)?);
            Ok(earlier(test, branches))
        }
        ExprKind::Assign(_, a, b) => {
            let target = expr(alloc, a, site)?;
            Ok(earlier(target, expr(alloc, b, site)?))
        }
        ExprKind::Index(a, b) => {
            let base = expr(alloc, a, site)?;
            Ok(earlier(base, expr(alloc, b, site)?))
        }
        ExprKind::Call(a, arguments) => {
            let callee = expr(alloc, a, site)?;
            Ok(earlier(callee, exprs(alloc, arguments, site)?))
        }
        ExprKind::Name(_)
        | ExprKind::Num(_)
        | ExprKind::Text(_)
        | ExprKind::Bool(_)
        | ExprKind::Null
        | ExprKind::Undefined
        | ExprKind::Dollar(_)
        | ExprKind::Val(_) => Ok(None),
    }
}

#[cycle(forms)]
pub(crate) fn exprs(
    alloc: Global,
    items: &Row<Expr>,
    site: Site,
) -> Result<Option<Broken>, NoMemory>
    ensures { IfOk result (λ found. found ≡ in_each first (on_expr (finding_forms first)) items.now site) }
{
    let mut found = None;
    for item in items.items() {
        found = earlier(found, expr(alloc, item, site)?);
    }
    Ok(found)
}

#[cycle(forms)]
pub(crate) fn prop(alloc: Global, from: &Prop, site: Site) -> Result<Option<Broken>, NoMemory>
    ensures { IfOk result (λ found. found ≡ (on_prop (finding_forms first) from.now).found site) }
{
    expr(alloc, &from.value, site)
}

#[cycle(forms)]
pub(crate) fn props(
    alloc: Global,
    items: &Row<Prop>,
    site: Site,
) -> Result<Option<Broken>, NoMemory>
    ensures { IfOk result (λ found. found ≡ in_each first (on_prop (finding_forms first)) items.now site) }
{
    let mut found = None;
    for item in items.items() {
        found = earlier(found, prop(alloc, item, site)?);
    }
    Ok(found)
}

#[cycle(forms)]
pub(crate) fn function(
    alloc: Global,
    from: &Function,
    site: Site,
) -> Result<Option<Broken>, NoMemory>
    ensures { IfOk result (λ found. found ≡ (on_function (finding_forms first) from.now).found site) }
{
    stmts(alloc, &from.body, site)
}

#[cycle(forms)]
pub(crate) fn value(
    alloc: Global,
    from: &Option<Expr>,
    site: Site,
) -> Result<Option<Broken>, NoMemory>
    ensures { IfOk result (λ found. found ≡ in_optional first (on_expr (finding_forms first)) from.now site) }
{
    match from {
        None => Ok(None),
        Some(a) => expr(alloc, a, site),
    }
}
