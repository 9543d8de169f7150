ghost use Rattle.std.specs.Prelude.{◌≡◌, ◌∷◌};
ghost use Rattle.mt_script_words.specs.Outcome.{Gives};
ghost use Rattle.mt_script_tree.specs.Expressions.{assigned, behind_at, behind_from, is_target as can_be_assigned, operated_at, operation_at, other_choice_at, second_at, signed_at, signed_from, step_at, stepped, unary_at};
ghost use Rattle.mt_script_tree.specs.Reading.{expr_at};

use crate::expressions::expr;
use mt_json::skip;
use mt_script_words::{CodeRefusal, Operator, first, read_operator};
use mt_syntax::{Expr, ExprKind};
use mt_tree::{Binary, StepKind, Unary};
use std::alloc::Global;

fn is_target(expr: &Expr) -> bool
    ensures { result ≡ can_be_assigned expr.now }
{
    match expr.kind.get() {
        ExprKind::Name(_) | ExprKind::Index(_, _) => true,
        ExprKind::Num(_)
        | ExprKind::Text(_)
        | ExprKind::Bool(_)
        | ExprKind::Null
        | ExprKind::Undefined
        | ExprKind::Arr(_)
        | ExprKind::Obj(_)
        | ExprKind::Fun(_)
        | ExprKind::Unary(_, _)
        | ExprKind::Step(_, _)
        | ExprKind::Binary(_, _, _)
        | ExprKind::And(_, _)
        | ExprKind::Or(_, _)
        | ExprKind::Cond(_, _, _)
        | ExprKind::Assign(_, _, _)
        | ExprKind::Call(_, _)
        | ExprKind::Tilde(_)
        | ExprKind::Dollar(_)
        | ExprKind::Stray(_)
        | ExprKind::Markup(_)
        | ExprKind::Val(_) => false,
    }
}

fn stepped(step: StepKind, target: Expr, rest: &[u8]) -> Result<(ExprKind, &[u8]), CodeRefusal>
    ensures { Gives (λ x. (x.0, x.1.now)) result (stepped step target rest.now) }
{
    if is_target(&target) {
        Ok((ExprKind::Step(step, target), rest))
    } else {
        Err(CodeRefusal::NotCode)
    }
}

fn assigned(
    operator: Option<Binary>,
    target: Expr,
    value: Expr,
    rest: &[u8],
) -> Result<(ExprKind, &[u8]), CodeRefusal>
    ensures { Gives (λ x. (x.0, x.1.now)) result (assigned operator target value rest.now) }
{
    if is_target(&target) {
        Ok((ExprKind::Assign(operator, target, value), rest))
    } else {
        Err(CodeRefusal::NotCode)
    }
}

#[cycle(read)]
pub(crate) fn unary(
    alloc: Global,
    depth: u32,
    operator: Unary,
    bytes: &[u8],
) -> Result<(ExprKind, &[u8]), CodeRefusal>
    ensures { Gives (λ x. (x.0, x.1.now)) result (unary_at (expr_at depth) operator bytes.now) }
{
    let (a, rest) = expr(alloc, depth, bytes)?;
    Ok((ExprKind::Unary(operator, a), skip(rest, 1)))
}

#[cycle(read)]
fn step(
    alloc: Global,
    depth: u32,
    step: StepKind,
    bytes: &[u8],
) -> Result<(ExprKind, &[u8]), CodeRefusal>
    ensures { Gives (λ x. (x.0, x.1.now)) result (step_at (expr_at depth) step bytes.now) }
{
    let (target, rest) = expr(alloc, depth, bytes)?;
    stepped(step, target, skip(rest, 1))
}

// Behind one sign: with the same sign again this is a step, and else the operator.
#[cycle(read)]
pub(crate) fn signed(
    alloc: Global,
    depth: u32,
    sign: u8,
    step_kind: StepKind,
    operator: Unary,
    bytes: &[u8],
) -> Result<(ExprKind, &[u8]), CodeRefusal>
    ensures { Gives (λ x. (x.0, x.1.now)) result (signed_at (expr_at depth) sign step_kind operator bytes.now) }
{
    let (b, rest) = first(bytes)?;
    if b == sign {
        step(alloc, depth, step_kind, rest)
    } else {
        unary(alloc, depth, operator, bytes)
    }
}

#[cycle(read)]
fn other_choice(
    alloc: Global,
    depth: u32,
    test: Expr,
    then: Expr,
    bytes: &[u8],
) -> Result<(ExprKind, &[u8]), CodeRefusal>
    ensures { Gives (λ x. (x.0, x.1.now)) result (other_choice_at (expr_at depth) test then bytes.now) }
{
    let (other, rest) = expr(alloc, depth, bytes)?;
    Ok((ExprKind::Cond(test, then, other), skip(rest, 1)))
}

#[cycle(read)]
fn second(
    alloc: Global,
    depth: u32,
    a: Expr,
    operator: Operator,
    b: Expr,
    bytes: &[u8],
) -> Result<(ExprKind, &[u8]), CodeRefusal>
    ensures { Gives (λ x. (x.0, x.1.now)) result (second_at (expr_at depth) a operator b bytes.now) }
{
    match operator {
        Operator::Binary(op) => Ok((ExprKind::Binary(op, a, b), skip(bytes, 1))),
        Operator::And => Ok((ExprKind::And(a, b), skip(bytes, 1))),
        Operator::Or => Ok((ExprKind::Or(a, b), skip(bytes, 1))),
        Operator::Assign(op) => assigned(op, a, b, skip(bytes, 1)),
        Operator::Choice => other_choice(alloc, depth, a, b, skip(bytes, 3)),
    }
}

#[cycle(read)]
fn operated(
    alloc: Global,
    depth: u32,
    a: Expr,
    bytes: &[u8],
) -> Result<(ExprKind, &[u8]), CodeRefusal>
    ensures { Gives (λ x. (x.0, x.1.now)) result (operated_at (expr_at depth) a bytes.now) }
{
    let (operator, rest) = read_operator(bytes)?;
    let (b, rest) = expr(alloc, depth, rest)?;
    second(alloc, depth, a, operator, b, rest)
}

#[cycle(read)]
fn behind(
    alloc: Global,
    depth: u32,
    a: Expr,
    bytes: &[u8],
) -> Result<(ExprKind, &[u8]), CodeRefusal>
    ensures { Gives (λ x. (x.0, x.1.now)) result (behind_at (expr_at depth) a bytes.now) }
{
    let (b, rest) = first(bytes)?;
    match b {
        b'+' => stepped(StepKind::IncAfter, a, skip(rest, 2)),
        b'-' => stepped(StepKind::DecAfter, a, skip(rest, 2)),
        _ => operated(alloc, depth, a, rest),
    }
}

/// An operation in parentheses that begins with its first operand.
#[cycle(read)]
pub(crate) fn operation(
    alloc: Global,
    depth: u32,
    bytes: &[u8],
) -> Result<(ExprKind, &[u8]), CodeRefusal>
    ensures { Gives (λ x. (x.0, x.1.now)) result (operation_at (expr_at depth) bytes.now) }
{
    let (a, rest) = expr(alloc, depth, bytes)?;
    behind(alloc, depth, a, rest)
}
