ghost use Rattle.std.specs.Prelude.{◌≡◌, ◌++◌, codes, map, OnOk, OnErr};
ghost use Rattle.std.specs.Io.{StartsWith};
ghost use Rattle.mt_syntax.specs.DataText.{separated};
ghost use Rattle.mt_script_write.specs.Written.{expr_kind_written, expr_written, prop_written};

use crate::functions::append_function;
use crate::literal::append_literal;
use crate::signs::{assignment_sign, binary_sign, unary_opening};
use crate::values::{append_dollar, append_value};
use mt_json::append_separator;
use mt_syntax::{Expr, ExprKind, Prop};
use mt_tree::{Data, NoMemory, StepKind, append, append_number};
use std::alloc::Global;

#[cycle(code)]
#[tactic(auto, using(mt_tree::proofs::Fronts::front_of_front, mt_tree::proofs::Fronts::front_of_more))]
pub(crate) fn append_expr(
    alloc: Global,
    from: &Expr,
    values: &[Data],
    into: &mut Vec<u8>,
) -> Result<(), NoMemory>
    ensures text { OnOk result (into.new.items ≡ into.old.items ++ expr_written values.now from.now) }
    ensures kept { OnErr result (StartsWith into.new.items into.old.items) }
{
    append_expr_kind(alloc, from.kind.get(), values, into)
}

// Nodes that no code has write nothing.
#[cycle(code)]
#[tactic(auto, using(mt_tree::proofs::Fronts::front_of_front, mt_tree::proofs::Fronts::front_of_more))]
fn append_expr_kind(
    alloc: Global,
    from: &ExprKind,
    values: &[Data],
    into: &mut Vec<u8>,
) -> Result<(), NoMemory>
    ensures text { OnOk result (into.new.items ≡ into.old.items ++ expr_kind_written values.now from.now) }
    ensures kept { OnErr result (StartsWith into.new.items into.old.items) }
{
    match from {
        ExprKind::Name(name) => append(name.as_bytes(), into),
        ExprKind::Num(number) => append_number(alloc, *number, into),
        ExprKind::Text(text) => append_literal(text.as_str(), into),
        ExprKind::Bool(true) => append(b"true", into),
        ExprKind::Bool(false) => append(b"false", into),
        ExprKind::Null => append(b"null", into),
        ExprKind::Undefined => append(b"undefined", into),
        ExprKind::Arr(items) => append_list(alloc, items.items(), b"[", b"]", values, into),
        ExprKind::Obj(props) => append_object(alloc, props.items(), values, into),
        ExprKind::Fun(function) => {
            append(b"(function", into)?;
            append_function(alloc, function, values, into)?;
            append(b")", into)
        }
        ExprKind::Unary(op, a) => append_enclosed(alloc, a, unary_opening(*op), b")", values, into),
        ExprKind::Step(StepKind::IncBefore, a) => append_enclosed(
            alloc, a, b"(++", b")", values, into,
        ),
        ExprKind::Step(StepKind::DecBefore, a) => append_enclosed(
            alloc, a, b"(--", b")", values, into,
        ),
        ExprKind::Step(StepKind::IncAfter, a) => append_enclosed(
            alloc, a, b"(", b"++)", values, into,
        ),
        ExprKind::Step(StepKind::DecAfter, a) => append_enclosed(
            alloc, a, b"(", b"--)", values, into,
        ),
        ExprKind::Binary(op, a, b) => {
            append_enclosed(alloc, a, b"(", binary_sign(*op), values, into)?;
            append_enclosed(alloc, b, b"", b")", values, into)
        }
        ExprKind::And(a, b) => {
            append_enclosed(alloc, a, b"(", b" && ", values, into)?;
            append_enclosed(alloc, b, b"", b")", values, into)
        }
        ExprKind::Or(a, b) => {
            append_enclosed(alloc, a, b"(", b" || ", values, into)?;
            append_enclosed(alloc, b, b"", b")", values, into)
        }
        ExprKind::Assign(op, a, b) => {
            append_enclosed(alloc, a, b"(", assignment_sign(*op), values, into)?;
            append_enclosed(alloc, b, b"", b")", values, into)
        }
        ExprKind::Cond(a, b, c) => {
            append_enclosed(alloc, a, b"(", b" ? ", values, into)?;
            append_enclosed(alloc, b, b"", b" : ", values, into)?;
            append_enclosed(alloc, c, b"", b")", values, into)
        }
        ExprKind::Index(a, b) => {
            append_expr(alloc, a, values, into)?;
            append_enclosed(alloc, b, b"[", b"]", values, into)
        }
        ExprKind::Call(a, arguments) => {
            append_expr(alloc, a, values, into)?;
            append_list(alloc, arguments.items(), b"(", b")", values, into)
        }
        ExprKind::Dollar(at) => append_dollar(alloc, values, *at, into),
        ExprKind::Val(datum) => append_value(alloc, datum, into),
        ExprKind::Tilde(_) | ExprKind::Stray(_) | ExprKind::Markup(_) => Ok(()),
    }
}

/// Appends an expression between two pieces of text.
#[cycle(code)]
#[tactic(auto, using(mt_tree::proofs::Fronts::front_of_front, mt_tree::proofs::Fronts::front_of_more))]
pub(crate) fn append_enclosed(
    alloc: Global,
    from: &Expr,
    before: &[u8],
    after: &[u8],
    values: &[Data],
    into: &mut Vec<u8>,
) -> Result<(), NoMemory>
    ensures text { OnOk result (into.new.items ≡ into.old.items ++ (before.now ++ (expr_written values.now from.now ++ after.now))) }
    ensures kept { OnErr result (StartsWith into.new.items into.old.items) }
{
    append(before, into)?;
    append_expr(alloc, from, values, into)?;
    append(after, into)
}

#[cycle(code)]
#[tactic(auto, using(mt_tree::proofs::Fronts::front_of_front, mt_tree::proofs::Fronts::front_of_more))]
fn append_exprs(
    alloc: Global,
    items: &[Expr],
    values: &[Data],
    into: &mut Vec<u8>,
) -> Result<(), NoMemory>
    ensures text { OnOk result (into.new.items ≡ into.old.items ++ separated (map (expr_written values.now) items.now)) }
    ensures kept { OnErr result (StartsWith into.new.items into.old.items) }
{
    let mut later = false;
    for item in items {
        append_separator(later, into)?;
        later = true;
        append_expr(alloc, item, values, into)?;
    }
    Ok(())
}

// The expressions with commas, between two pieces of text.
#[cycle(code)]
#[tactic(auto, using(mt_tree::proofs::Fronts::front_of_front, mt_tree::proofs::Fronts::front_of_more))]
fn append_list(
    alloc: Global,
    items: &[Expr],
    before: &[u8],
    after: &[u8],
    values: &[Data],
    into: &mut Vec<u8>,
) -> Result<(), NoMemory>
    ensures text { OnOk result (into.new.items ≡ into.old.items ++ (before.now ++ (separated (map (expr_written values.now) items.now) ++ after.now))) }
    ensures kept { OnErr result (StartsWith into.new.items into.old.items) }
{
    append(before, into)?;
    append_exprs(alloc, items, values, into)?;
    append(after, into)
}

#[cycle(code)]
#[tactic(auto, using(mt_tree::proofs::Fronts::front_of_front, mt_tree::proofs::Fronts::front_of_more))]
fn append_prop(
    alloc: Global,
    from: &Prop,
    values: &[Data],
    into: &mut Vec<u8>,
) -> Result<(), NoMemory>
    ensures text { OnOk result (into.new.items ≡ into.old.items ++ prop_written values.now from.now) }
    ensures kept { OnErr result (StartsWith into.new.items into.old.items) }
{
    append_literal(from.name.as_str(), into)?;
    append_enclosed(alloc, &from.value, b":", b"", values, into)
}

#[cycle(code)]
#[tactic(auto, using(mt_tree::proofs::Fronts::front_of_front, mt_tree::proofs::Fronts::front_of_more))]
fn append_props(
    alloc: Global,
    items: &[Prop],
    values: &[Data],
    into: &mut Vec<u8>,
) -> Result<(), NoMemory>
    ensures text { OnOk result (into.new.items ≡ into.old.items ++ separated (map (prop_written values.now) items.now)) }
    ensures kept { OnErr result (StartsWith into.new.items into.old.items) }
{
    let mut later = false;
    for item in items {
        append_separator(later, into)?;
        later = true;
        append_prop(alloc, item, values, into)?;
    }
    Ok(())
}

#[cycle(code)]
#[tactic(auto, using(mt_tree::proofs::Fronts::front_of_front, mt_tree::proofs::Fronts::front_of_more))]
fn append_object(
    alloc: Global,
    items: &[Prop],
    values: &[Data],
    into: &mut Vec<u8>,
) -> Result<(), NoMemory>
    ensures text { OnOk result (into.new.items ≡ into.old.items ++ (codes "({" ++ (separated (map (prop_written values.now) items.now) ++ codes "})"))) }
    ensures kept { OnErr result (StartsWith into.new.items into.old.items) }
{
    append(b"({", into)?;
    append_props(alloc, items, values, into)?;
    append(b"})", into)
}
