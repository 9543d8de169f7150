ghost use Rattle.std.specs.Prelude.{◌≡◌, ◌∷◌, ◌-◌, zero};
ghost use Rattle.mt_script_words.specs.Outcome.{Gives};
ghost use Rattle.mt_script_tree.specs.Expressions.{chain_at, constant_of, enclosed_at, enclosed_from, grown_at, grown_from, head_at, head_from, led_at, number_at, prop_at, value_at, word_at};
ghost use Rattle.mt_script_tree.specs.Reading.{expr_at, stmt_at};

use crate::functions::function;
use crate::lists::{exprs, props};
use crate::made::expr_of;
use crate::operations::{operation, signed, unary};
use mt_json::{is_digit, skip};
use mt_script_words::{
    CodeRefusal, Leader, after_word, datum, find_leader, first, name, number, string, text, word,
};
use mt_syntax::{Expr, ExprKind, Prop};
use mt_tree::{StepKind, Unary};
use std::alloc::Global;

fn value(alloc: Global, bytes: &[u8]) -> Result<(ExprKind, &[u8]), CodeRefusal>
    ensures { Gives (λ x. (x.0, x.1.now)) result (value_at bytes.now) }
{
    let (json, rest) = string(alloc, bytes)?;
    let found = datum(alloc, json.as_slice())?;
    Ok((ExprKind::Val(found), skip(rest, 1)))
}

fn number_kind(alloc: Global, bytes: &[u8]) -> Result<(ExprKind, &[u8]), CodeRefusal>
    ensures { Gives (λ x. (x.0, x.1.now)) result (number_at bytes.now) }
{
    let found = number(alloc, word(bytes))?;
    Ok((ExprKind::Num(found), after_word(bytes)))
}

fn constant(alloc: Global, leader: Leader, word: &[u8]) -> Result<ExprKind, CodeRefusal>
    ensures { Gives (λ x. x) result (constant_of leader word.now) }
{
    match leader {
        Leader::Truth(b) => Ok(ExprKind::Bool(b)),
        Leader::Null => Ok(ExprKind::Null),
        Leader::Undefined => Ok(ExprKind::Undefined),
        Leader::Function | Leader::Typeof | Leader::Other => {
            Ok(ExprKind::Name(name(alloc, word)?))
        }
    }
}

fn word_kind(alloc: Global, bytes: &[u8]) -> Result<(ExprKind, &[u8]), CodeRefusal>
    ensures { Gives (λ x. (x.0, x.1.now)) result (word_at bytes.now) }
{
    let found = constant(alloc, find_leader(word(bytes)), word(bytes))?;
    Ok((found, after_word(bytes)))
}

/// A property with its name and value.
#[cycle(read)]
pub(crate) fn prop(alloc: Global, depth: u32, bytes: &[u8]) -> Result<(Prop, &[u8]), CodeRefusal>
    ensures { Gives (λ x. (x.0, x.1.now)) result (prop_at (expr_at depth) bytes.now) }
{
    let (name, rest) = text(alloc, skip(bytes, 1))?;
    let (value, rest) = expr(alloc, depth, skip(rest, 1))?;
    Ok((Prop { name, value }, rest))
}

#[cycle(read)]
fn led(
    alloc: Global,
    depth: u32,
    leader: Leader,
    bytes: &[u8],
) -> Result<(ExprKind, &[u8]), CodeRefusal>
    ensures { Gives (λ x. (x.0, x.1.now)) result (led_at (expr_at depth) (stmt_at depth) leader bytes.now) }
{
    match leader {
        Leader::Function => {
            let (found, rest) = function(alloc, depth, after_word(bytes))?;
            Ok((ExprKind::Fun(found), skip(rest, 1)))
        }
        Leader::Typeof => unary(alloc, depth, Unary::Typeof, skip(after_word(bytes), 1)),
        Leader::Truth(_) | Leader::Null | Leader::Undefined | Leader::Other => {
            operation(alloc, depth, bytes)
        }
    }
}

#[cycle(read)]
fn enclosed_from<'a>(
    alloc: Global,
    depth: u32,
    b: u8,
    rest: &'a [u8],
    bytes: &'a [u8],
) -> Result<(ExprKind, &'a [u8]), CodeRefusal>
    requires { bytes.now ≡ b ∷ rest.now }
    ensures { Gives (λ x. (x.0, x.1.now)) result (enclosed_from (expr_at depth) (stmt_at depth) b rest.now) }
{
    match b {
        b'{' => {
            let (found, rest) = props(alloc, depth, rest)?;
            Ok((ExprKind::Obj(found), skip(rest, 1)))
        }
        b'!' => unary(alloc, depth, Unary::Not, rest),
        b'-' => signed(alloc, depth, b'-', StepKind::DecBefore, Unary::Minus, rest),
        b'+' => signed(alloc, depth, b'+', StepKind::IncBefore, Unary::Plus, rest),
        _ => led(alloc, depth, find_leader(word(bytes)), bytes),
    }
}

#[cycle(read)]
fn enclosed(alloc: Global, depth: u32, bytes: &[u8]) -> Result<(ExprKind, &[u8]), CodeRefusal>
    ensures { Gives (λ x. (x.0, x.1.now)) result (enclosed_at (expr_at depth) (stmt_at depth) bytes.now) }
{
    let (b, rest) = first(bytes)?;
    enclosed_from(alloc, depth, b, rest, bytes)
}

#[cycle(read)]
fn head_from<'a>(
    alloc: Global,
    depth: u32,
    b: u8,
    rest: &'a [u8],
    bytes: &'a [u8],
) -> Result<(ExprKind, &'a [u8]), CodeRefusal>
    requires { bytes.now ≡ b ∷ rest.now }
    ensures { Gives (λ x. (x.0, x.1.now)) result (head_from (expr_at depth) (stmt_at depth) b rest.now) }
{
    match b {
        b'(' => enclosed(alloc, depth, rest),
        b'[' => {
            let (found, rest) = exprs(alloc, depth, b']', rest)?;
            Ok((ExprKind::Arr(found), rest))
        }
        b'"' => {
            let (found, rest) = text(alloc, rest)?;
            Ok((ExprKind::Text(found), rest))
        }
        b'$' => value(alloc, skip(rest, 3)),
        _ => {
            if is_digit(b) {
                number_kind(alloc, bytes)
            } else {
                word_kind(alloc, bytes)
            }
        }
    }
}

#[cycle(read)]
fn head(alloc: Global, depth: u32, bytes: &[u8]) -> Result<(ExprKind, &[u8]), CodeRefusal>
    ensures { Gives (λ x. (x.0, x.1.now)) result (head_at (expr_at depth) (stmt_at depth) bytes.now) }
{
    let (b, rest) = first(bytes)?;
    head_from(alloc, depth, b, rest, bytes)
}

#[cycle(read)]
fn grown_from<'a>(
    alloc: Global,
    depth: u32,
    base: Expr,
    b: u8,
    rest: &'a [u8],
    bytes: &'a [u8],
) -> Result<((bool, Expr), &'a [u8]), CodeRefusal>
    requires { bytes.now ≡ b ∷ rest.now }
    ensures { Gives (λ x. (x.0, x.1.now)) result (grown_from (expr_at depth) base b rest.now) }
{
    match b {
        b'[' => {
            let (key, rest) = expr(alloc, depth, rest)?;
            let grown = expr_of(alloc, ExprKind::Index(base, key))?;
            Ok(((true, grown), skip(rest, 1)))
        }
        b'(' => {
            let (arguments, rest) = exprs(alloc, depth, b')', rest)?;
            let grown = expr_of(alloc, ExprKind::Call(base, arguments))?;
            Ok(((true, grown), rest))
        }
        _ => Ok(((false, base), bytes)),
    }
}

#[cycle(read)]
fn grown(
    alloc: Global,
    depth: u32,
    base: Expr,
    bytes: &[u8],
) -> Result<((bool, Expr), &[u8]), CodeRefusal>
    ensures { Gives (λ x. (x.0, x.1.now)) result (grown_at (expr_at depth) base bytes.now) }
{
    let (b, rest) = first(bytes)?;
    grown_from(alloc, depth, base, b, rest, bytes)
}

// The keys and arguments behind an expression, one after the other.
#[cycle(read)]
fn chain(
    alloc: Global,
    depth: u32,
    turns: u32,
    base: Expr,
    bytes: &[u8],
) -> Result<(Expr, &[u8]), CodeRefusal>
    ensures { Gives (λ x. (x.0, x.1.now)) result (chain_at (expr_at depth) turns base bytes.now) }
{
    let mut found = base;
    let mut rest = bytes;
    for _ in 0..turns {
        let ((more, next), after) = grown(alloc, depth, found, rest)?;
        found = next;
        rest = after;
        if !more {
            return Ok((found, rest));
        }
    }
    Err(CodeRefusal::NotCode)
}

/// An expression, with the keys and arguments behind it.
#[cycle(read)]
#[tactic(auto, using(crate::proofs::Depths::no_expr, crate::proofs::Depths::expr_below))]
pub(crate) fn expr(alloc: Global, depth: u32, bytes: &[u8]) -> Result<(Expr, &[u8]), CodeRefusal>
    ensures { Gives (λ x. (x.0, x.1.now)) result (expr_at depth bytes.now) }
{
    if depth == 0 {
        return Err(CodeRefusal::NotCode);
    }
    let (kind, rest) = head(alloc, depth - 1, bytes)?;
    chain(alloc, depth - 1, depth, expr_of(alloc, kind)?, rest)
}
