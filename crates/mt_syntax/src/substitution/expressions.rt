ghost use Rattle.std.specs.Prelude.{◌≡◌, map, option_map, IfOk};
ghost use Rattle.mt_syntax.specs.Substitution.{subst_expr, subst_expr_kind, subst_prop, subst_function};

use crate::substitution::marks::{NOWHERE, marks, optional_mark};
use crate::substitution::markup::markup;
use crate::substitution::statements::stmts;
use crate::substitution::values::{push, value_at};
use crate::tree::{Expr, ExprKind, Function, Prop};
use mt_tree::{Boxed, Data, NoMemory, Row};
use std::alloc::Global;

#[cycle(substitution)]
pub(crate) fn expr(alloc: Global, from: &Expr, values: &[Data]) -> Result<Expr, NoMemory>
    ensures { IfOk result (λ e. e ≡ subst_expr values.now from.now) }
{
    let kind = expr_kind(alloc, from.kind.get(), values)?;
    Ok(Expr {
        place: NOWHERE,
        kind: Boxed::new(alloc, kind)?,
    })
}

#[cycle(substitution)]
pub(crate) fn expr_kind(
    alloc: Global,
    from: &ExprKind,
    values: &[Data],
) -> Result<ExprKind, NoMemory>
    ensures { IfOk result (λ k. k ≡ subst_expr_kind values.now from.now) }
{
    match from {
        ExprKind::Name(name) => Ok(ExprKind::Name(name.share()?)),
        ExprKind::Num(n) => Ok(ExprKind::Num(*n)),
        ExprKind::Text(text) => Ok(ExprKind::Text(text.share()?)),
        ExprKind::Bool(b) => Ok(ExprKind::Bool(*b)),
        ExprKind::Null => Ok(ExprKind::Null),
        ExprKind::Undefined => Ok(ExprKind::Undefined),
        ExprKind::Arr(items) => Ok(ExprKind::Arr(exprs(alloc, items, values)?)),
        ExprKind::Obj(items) => Ok(ExprKind::Obj(props(alloc, items, values)?)),
        ExprKind::Fun(f) => Ok(ExprKind::Fun(function(alloc, f, values)?)),
        ExprKind::Unary(op, a) => Ok(ExprKind::Unary(*op, expr(alloc, a, values)?)),
        ExprKind::Step(op, a) => Ok(ExprKind::Step(*op, expr(alloc, a, values)?)),
        ExprKind::Binary(op, a, b) => {
            let left = expr(alloc, a, values)?;
            Ok(ExprKind::Binary(*op, left, expr(alloc, b, values)?))
        }
        ExprKind::And(a, b) => {
            let left = expr(alloc, a, values)?;
            Ok(ExprKind::And(left, expr(alloc, b, values)?))
        }
        ExprKind::Or(a, b) => {
            let left = expr(alloc, a, values)?;
            Ok(ExprKind::Or(left, expr(alloc, b, values)?))
        }
        ExprKind::Cond(a, b, c) => {
            let test = expr(alloc, a, values)?;
            let then = expr(alloc, b, values)?;
            Ok(ExprKind::Cond(test, then, expr(alloc, c, values)?))
        }
        ExprKind::Assign(op, a, b) => {
            let target = expr(alloc, a, values)?;
            Ok(ExprKind::Assign(*op, target, expr(alloc, b, values)?))
        }
        ExprKind::Index(a, b) => {
            let base = expr(alloc, a, values)?;
            Ok(ExprKind::Index(base, expr(alloc, b, values)?))
        }
        ExprKind::Call(a, arguments) => {
            let callee = expr(alloc, a, values)?;
            Ok(ExprKind::Call(callee, exprs(alloc, arguments, values)?))
        }
        ExprKind::Tilde(id) => Ok(ExprKind::Tilde(*id)),
        ExprKind::Dollar(at) => value_at(values, *at),
        ExprKind::Stray(a) => Ok(ExprKind::Stray(expr(alloc, a, values)?)),
        ExprKind::Markup(m) => Ok(ExprKind::Markup(markup(alloc, m, values)?)),
        ExprKind::Val(d) => Ok(ExprKind::Val(d.share()?)),
    }
}

#[cycle(substitution)]
pub(crate) fn exprs(
    alloc: Global,
    items: &Row<Expr>,
    values: &[Data],
) -> Result<Row<Expr>, NoMemory>
    ensures { IfOk result (λ row. row ≡ map (subst_expr values.now) items.now) }
{
    let mut made = Vec::new(alloc);
    for item in items.items() {
        push(&mut made, expr(alloc, item, values)?)?;
    }
    Row::from_vec(alloc, made)
}

#[cycle(substitution)]
pub(crate) fn prop(alloc: Global, from: &Prop, values: &[Data]) -> Result<Prop, NoMemory>
    ensures { IfOk result (λ p. p ≡ subst_prop values.now from.now) }
{
    let name = from.name.share()?;
    Ok(Prop {
        name,
        value: expr(alloc, &from.value, values)?,
    })
}

#[cycle(substitution)]
pub(crate) fn props(
    alloc: Global,
    items: &Row<Prop>,
    values: &[Data],
) -> Result<Row<Prop>, NoMemory>
    ensures { IfOk result (λ row. row ≡ map (subst_prop values.now) items.now) }
{
    let mut made = Vec::new(alloc);
    for item in items.items() {
        push(&mut made, prop(alloc, item, values)?)?;
    }
    Row::from_vec(alloc, made)
}

#[cycle(substitution)]
pub(crate) fn function(
    alloc: Global,
    from: &Function,
    values: &[Data],
) -> Result<Function, NoMemory>
    ensures { IfOk result (λ f. f ≡ subst_function values.now from.now) }
{
    let name = optional_mark(&from.name)?;
    let parameters = marks(alloc, from.parameters.items())?;
    Ok(Function {
        name,
        parameters,
        body: stmts(alloc, &from.body, values)?,
    })
}

#[cycle(substitution)]
pub(crate) fn value(
    alloc: Global,
    from: &Option<Expr>,
    values: &[Data],
) -> Result<Option<Expr>, NoMemory>
    ensures { IfOk result (λ e. e ≡ option_map (subst_expr values.now) from.now) }
{
    match from {
        None => Ok(None),
        Some(e) => Ok(Some(expr(alloc, e, values)?)),
    }
}
