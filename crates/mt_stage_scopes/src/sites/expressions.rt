ghost use Rattle.std.specs.Prelude.{◌≡◌, ◌++◌, ◌∷◌, [], map, option_map, OnOk};
ghost use Rattle.std.specs.Option.{option_copied};
ghost use Rattle.mt_syntax.specs.Fold.{on_expr, on_expr_kind, on_function, on_prop};
ghost use Rattle.mt_stage_declared.specs.Parts.{optional_found};
ghost use Rattle.mt_stage_scopes.specs.Sites.{joined, nowhere, site_of_name, sites, sites_in};

use crate::around::Around;
use crate::site::Site;
use crate::sites::markup::markup;
use crate::sites::scopes::{body_scope, own_scope};
use crate::sites::statements::stmts;
use mt_syntax::{Expr, ExprKind, Function, Mark, Prop};
use mt_tree::{NoMemory, Place, Row, Text};
use std::alloc::Global;

pub(crate) fn push(into: &mut Vec<Site>, site: Site) -> Result<(), NoMemory>
    ensures { OnOk result (into.new.items ≡ into.old.items ++ site ∷ []) }
{
    match into.push(site) {
        Ok(()) => Ok(()),
        Err(_refused) => Err(NoMemory),
    }
}

// The name that an expression is.
fn name_of(kind: &ExprKind) -> Option<&Text>
    ensures { option_copied result ≡ (on_expr_kind sites kind.now).found.name }
{
    match kind {
        ExprKind::Name(name) => Some(name),
        ExprKind::Num(_)
        | ExprKind::Text(_)
        | ExprKind::Bool(_)
        | ExprKind::Null
        | ExprKind::Undefined
        | ExprKind::Arr(_)
        | ExprKind::Obj(_)
        | ExprKind::Fun(_)
        | ExprKind::Unary(_, _)
        | ExprKind::Step(_, _)
        | ExprKind::Binary(_, _, _)
        | ExprKind::And(_, _)
        | ExprKind::Or(_, _)
        | ExprKind::Cond(_, _, _)
        | ExprKind::Assign(_, _, _)
        | ExprKind::Index(_, _)
        | ExprKind::Call(_, _)
        | ExprKind::Tilde(_)
        | ExprKind::Dollar(_)
        | ExprKind::Stray(_)
        | ExprKind::Markup(_)
        | ExprKind::Val(_) => None,
    }
}

fn name_at(
    place: Place,
    kind: &ExprKind,
    around: &Around,
    into: &mut Vec<Site>,
) -> Result<(), NoMemory>
    ensures { OnOk result (into.new.items ≡ into.old.items ++ site_of_name place (on_expr_kind sites kind.now).found.name around.now) }
{
    match name_of(kind) {
        None => Ok(()),
        Some(name) => {
            let mark = Mark {
                place,
                name: name.share()?,
            };
            push(into, Site::Name(mark, around.share()?))
        }
    }
}

#[cycle(sites)]
pub(crate) fn expr(
    alloc: Global,
    from: &Expr,
    around: &Around,
    into: &mut Vec<Site>,
) -> Result<(), NoMemory>
    ensures { OnOk result (into.new.items ≡ into.old.items ++ (on_expr sites from.now).found.sites around.now) }
{
    name_at(from.place, from.kind.get(), around, into)?;
    expr_kind(alloc, from.kind.get(), around, into)
}

#[cycle(sites)]
fn expr_kind(
    alloc: Global,
    from: &ExprKind,
    around: &Around,
    into: &mut Vec<Site>,
) -> Result<(), NoMemory>
    ensures { OnOk result (into.new.items ≡ into.old.items ++ (on_expr_kind sites from.now).found.sites around.now) }
{
    match from {
        ExprKind::Name(_)
        | ExprKind::Num(_)
        | ExprKind::Text(_)
        | ExprKind::Bool(_)
        | ExprKind::Null
        | ExprKind::Undefined
        | ExprKind::Val(_) => Ok(()),
        ExprKind::Tilde(id) => push(into, Site::Tilde(*id, around.share()?)),
        ExprKind::Dollar(at) => push(into, Site::Dollar(*at, around.share()?)),
        ExprKind::Arr(items) => exprs(alloc, items, around, into),
        ExprKind::Obj(items) => props(alloc, items, around, into),
        ExprKind::Fun(f) => {
            let inner = around.within(alloc, own_scope(alloc, f)?)?;
            function(alloc, f, &inner, into)
        }
        ExprKind::Unary(_, a) | ExprKind::Step(_, a) => expr(alloc, a, around, into),
        ExprKind::Stray(a) => expr(alloc, a, &around.in_dollar()?, into),
        ExprKind::Binary(_, a, b)
        | ExprKind::And(a, b)
        | ExprKind::Or(a, b)
        | ExprKind::Assign(_, a, b)
        | ExprKind::Index(a, b) => {
            expr(alloc, a, around, into)?;
            expr(alloc, b, around, into)
        }
        ExprKind::Cond(a, b, c) => {
            expr(alloc, a, around, into)?;
            expr(alloc, b, around, into)?;
            expr(alloc, c, around, into)
        }
        ExprKind::Call(a, arguments) => {
            expr(alloc, a, around, into)?;
            exprs(alloc, arguments, around, into)
        }
        ExprKind::Markup(m) => markup(alloc, m, around, into),
    }
}

#[cycle(sites)]
fn exprs(
    alloc: Global,
    items: &Row<Expr>,
    around: &Around,
    into: &mut Vec<Site>,
) -> Result<(), NoMemory>
    ensures { OnOk result (into.new.items ≡ into.old.items ++ sites_in (map (on_expr sites) items.now) around.now) }
{
    for item in items.items() {
        expr(alloc, item, around, into)?;
    }
    Ok(())
}

#[cycle(sites)]
fn prop(alloc: Global, from: &Prop, around: &Around, into: &mut Vec<Site>) -> Result<(), NoMemory>
    ensures { OnOk result (into.new.items ≡ into.old.items ++ (on_prop sites from.now).found.sites around.now) }
{
    expr(alloc, &from.value, around, into)
}

#[cycle(sites)]
fn props(
    alloc: Global,
    items: &Row<Prop>,
    around: &Around,
    into: &mut Vec<Site>,
) -> Result<(), NoMemory>
    ensures { OnOk result (into.new.items ≡ into.old.items ++ sites_in (map (on_prop sites) items.now) around.now) }
{
    for item in items.items() {
        prop(alloc, item, around, into)?;
    }
    Ok(())
}

#[cycle(sites)]
pub(crate) fn function(
    alloc: Global,
    from: &Function,
    around: &Around,
    into: &mut Vec<Site>,
) -> Result<(), NoMemory>
    ensures { OnOk result (into.new.items ≡ into.old.items ++ (on_function sites from.now).found.sites around.now) }
{
    let scope = body_scope(alloc, &from.body, &from.parameters)?;
    let inner = around.within(alloc, scope)?;
    stmts(alloc, &from.body, &inner, into)
}

#[cycle(sites)]
pub(crate) fn optional_expr(
    alloc: Global,
    from: &Option<Expr>,
    around: &Around,
    into: &mut Vec<Site>,
) -> Result<(), NoMemory>
    ensures { OnOk result (into.new.items ≡ into.old.items ++ (optional_found nowhere joined (option_map (on_expr sites) from.now)).sites around.now) }
{
    match from {
        None => Ok(()),
        Some(a) => expr(alloc, a, around, into),
    }
}
