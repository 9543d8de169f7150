ghost use Rattle.std.specs.Prelude.{◌≡◌, map, option_map, IfOk};
ghost use Rattle.mt_eval_meaning.specs.Free as spec;
ghost use Rattle.mt_eval_meaning.specs.Free.{finding};
ghost use Rattle.mt_resolve_free.specs.Tildes.{names_at};
ghost use Rattle.mt_syntax.specs.Fold.{on_expr, on_expr_kind, on_function, on_prop};
ghost use Rattle.mt_syntax.specs.Gathering.{all_of, or_none};

use crate::names::{names_of, push_name};
use crate::used::Used;
use crate::walk::markup::markup;
use crate::walk::statements::stmts;
use mt_syntax::{Expr, ExprKind, Function, Prop};
use mt_tree::{NoMemory, Row, Text, push};
use std::alloc::Global;

#[cycle(walk)]
pub(crate) fn expr(alloc: Global, tildes: &[Row<Text>], from: &Expr) -> Result<Used, NoMemory>
    ensures { IfOk result (λ used. used ≡ on_expr (finding (names_at tildes.now)) from.now) }
{
    expr_kind(alloc, tildes, from.kind.get())
}

#[cycle(walk)]
fn expr_kind(alloc: Global, tildes: &[Row<Text>], from: &ExprKind) -> Result<Used, NoMemory>
    ensures { IfOk result (λ used. used ≡ on_expr_kind (finding (names_at tildes.now)) from.now) }
{
    match from {
        ExprKind::Num(_)
        | ExprKind::Text(_)
        | ExprKind::Bool(_)
        | ExprKind::Null
        | ExprKind::Undefined
        | ExprKind::Dollar(_)
        | ExprKind::Val(_) => Ok(Used::none(alloc)),
        ExprKind::Name(name) => {
            let mut names = Vec::new(alloc);
            push_name(&mut names, name)?;
            Ok(Used::using(alloc, names))
        }
        ExprKind::Tilde(id) => {
            let names = tilde(alloc, tildes, *id)?;
            Ok(Used::using(alloc, names))
        }
        ExprKind::Arr(items) => Ok(exprs(alloc, tildes, items.items())?.free_only(alloc)),
        ExprKind::Obj(items) => Ok(props(alloc, tildes, items.items())?.free_only(alloc)),
        ExprKind::Fun(f) => function(alloc, tildes, f)?.in_expression(alloc),
        ExprKind::Unary(_, a) | ExprKind::Step(_, a) | ExprKind::Stray(a) => {
            Ok(expr(alloc, tildes, a)?.free_only(alloc))
        }
        ExprKind::Binary(_, a, b)
        | ExprKind::And(a, b)
        | ExprKind::Or(a, b)
        | ExprKind::Assign(_, a, b)
        | ExprKind::Index(a, b) => {
            let left = expr(alloc, tildes, a)?;
            let right = expr(alloc, tildes, b)?;
            Ok(left.joined(right)?.free_only(alloc))
        }
        ExprKind::Cond(a, b, c) => {
            let test = expr(alloc, tildes, a)?;
            let then = expr(alloc, tildes, b)?;
            let other = expr(alloc, tildes, c)?;
            Ok(test.joined(then.joined(other)?)?.free_only(alloc))
        }
        ExprKind::Call(a, arguments) => {
            let callee = expr(alloc, tildes, a)?;
            let rest = exprs(alloc, tildes, arguments.items())?;
            Ok(callee.joined(rest)?.free_only(alloc))
        }
        ExprKind::Markup(m) => Ok(markup(alloc, tildes, m)?.free_only(alloc)),
    }
}

// The names of a tilde.
fn tilde(alloc: Global, tildes: &[Row<Text>], id: u32) -> Result<Vec<Text>, NoMemory>
    ensures { IfOk result (λ names. names.items ≡ names_at tildes.now id) }
{
    match tildes.get(id as usize) {
        None => Ok(Vec::new(alloc)),
        Some(names) => copied(alloc, names.items()),
    }
}

fn copied(alloc: Global, names: &[Text]) -> Result<Vec<Text>, NoMemory>
    ensures { IfOk result (λ copies. copies.items ≡ names.now) }
{
    let mut copies = Vec::new(alloc);
    for name in names {
        push_name(&mut copies, name)?;
    }
    Ok(copies)
}

#[cycle(walk)]
pub(crate) fn exprs(alloc: Global, tildes: &[Row<Text>], items: &[Expr]) -> Result<Used, NoMemory>
    ensures { IfOk result (λ used. used ≡ all_of spec.none spec.joined (map (on_expr (finding (names_at tildes.now))) items.now)) }
{
    let mut each = Vec::new(alloc);
    for item in items {
        push(&mut each, expr(alloc, tildes, item)?)?;
    }
    Used::all(alloc, each)
}

#[cycle(walk)]
fn prop(alloc: Global, tildes: &[Row<Text>], from: &Prop) -> Result<Used, NoMemory>
    ensures { IfOk result (λ used. used ≡ on_prop (finding (names_at tildes.now)) from.now) }
{
    expr(alloc, tildes, &from.value)
}

#[cycle(walk)]
fn props(alloc: Global, tildes: &[Row<Text>], items: &[Prop]) -> Result<Used, NoMemory>
    ensures { IfOk result (λ used. used ≡ all_of spec.none spec.joined (map (on_prop (finding (names_at tildes.now))) items.now)) }
{
    let mut each = Vec::new(alloc);
    for item in items {
        push(&mut each, prop(alloc, tildes, item)?)?;
    }
    Used::all(alloc, each)
}

#[cycle(walk)]
pub(crate) fn optional_expr(
    alloc: Global,
    tildes: &[Row<Text>],
    from: &Option<Expr>,
) -> Result<Used, NoMemory>
    ensures { IfOk result (λ used. used ≡ or_none spec.none spec.joined (option_map (on_expr (finding (names_at tildes.now))) from.now)) }
{
    match from {
        None => Ok(Used::none(alloc)),
        Some(a) => expr(alloc, tildes, a),
    }
}

#[cycle(walk)]
pub(crate) fn function(
    alloc: Global,
    tildes: &[Row<Text>],
    from: &Function,
) -> Result<Used, NoMemory>
    ensures { IfOk result (λ used. used ≡ on_function (finding (names_at tildes.now)) from.now) }
{
    let body = stmts(alloc, tildes, from.body.items())?;
    let parameters = names_of(alloc, from.parameters.items())?;
    let mut own = Vec::new(alloc);
    match &from.name {
        None => body.in_function(alloc, parameters, own),
        Some(name) => {
            push_name(&mut own, &name.name)?;
            body.in_function(alloc, parameters, own)
        }
    }
}
