ghost use Rattle.std.specs.Prelude.{◌≡◌, IfOk};
ghost use Rattle.mt_ops.specs.Errors.{Answers, settled};
ghost use Rattle.mt_ops.specs.Lawful.{StaysLawful};
ghost use Rattle.mt_ops.specs.Operators as spec;
ghost use Rattle.mt_ops.specs.Numbers as numbers;
ghost use Rattle.mt_value.specs.Lawful.{Lawful, LawfulValue};

use crate::equality::same;
use crate::error::{ErrorKind, Operator};
use crate::number;
use crate::order::comes_before;
use crate::outcome::{Outcome, Refusal, settle};
use crate::text::{join_text, joined, plain, type_name};
use mt_tree::{Binary, NoMemory, Text, Unary};
use mt_value::{Store, Value};
use std::alloc::Global;

/// The value of an operator between two operands, or the error that it throws.
///
/// # Errors
/// `NoMemory`.
pub fn binary(
    alloc: Global,
    op: Binary,
    left: &Value,
    right: &Value,
    store: &mut Store,
) -> Result<Outcome, NoMemory>
    ensures meant { IfOk result (λ outcome. (outcome, store.new) ≡ settled (spec.binary_of op left.now right.now) store.old) }
    ensures lawful { Lawful store.old → IfOk result (λ outcome. StaysLawful store.old store.new outcome) }
{
    settle(alloc, binary_value(alloc, op, left, right), store)
}

/// The value of an operator before its operand, or the error that it throws.
///
/// # Errors
/// `NoMemory`.
pub fn unary(
    alloc: Global,
    op: Unary,
    operand: &Value,
    store: &mut Store,
) -> Result<Outcome, NoMemory>
    ensures meant { IfOk result (λ outcome. (outcome, store.new) ≡ settled (spec.unary_of op operand.now) store.old) }
    ensures lawful { Lawful store.old → LawfulValue store.old operand.now → IfOk result (λ outcome. StaysLawful store.old store.new outcome) }
{
    settle(alloc, unary_value(alloc, op, operand), store)
}

#[tactic(auto, unfolding(crate::specs::Operators::binary_of))]
fn binary_value(alloc: Global, op: Binary, left: &Value, right: &Value) -> Result<Value, Refusal>
    ensures { Answers (spec.binary_of op left.now right.now) result }
{
    match op {
        Binary::Add => addition(alloc, left, right),
        Binary::Sub => difference(left, right),
        Binary::Mul => product(left, right),
        Binary::Div => quotient(left, right),
        Binary::Rem => remainder(left, right),
        Binary::Less => less(left, right),
        Binary::LessEqual => less_equal(left, right),
        Binary::Greater => greater(left, right),
        Binary::GreaterEqual => greater_equal(left, right),
        Binary::Same => Ok(Value::Bool(same(left, right))),
        Binary::Different => Ok(Value::Bool(!same(left, right))),
    }
}

fn do_not_fit(operator: Operator) -> Result<Value, Refusal>
    ensures { result ≡ Err (Refusal.Error (ErrorKind.OperandsDoNotFit operator)) }
{
    Err(Refusal::Error(ErrorKind::OperandsDoNotFit(operator)))
}

fn number(answer: Result<i64, ErrorKind>) -> Result<Value, Refusal>
    ensures { Answers (spec.number_or_error answer) result }
{
    match answer {
        Ok(n) => Ok(Value::Num(n)),
        Err(error) => Err(Refusal::Error(error)),
    }
}

#[tactic(auto, unfolding(crate::specs::Operators::addition))]
fn addition(alloc: Global, left: &Value, right: &Value) -> Result<Value, Refusal>
    ensures { Answers (spec.addition left.now right.now) result }
{
    match (left, right) {
        (Value::Num(a), Value::Num(b)) => number(number::sum(*a, *b)),
        _ => concatenation(alloc, left, right),
    }
}

fn is_text(value: &Value) -> bool
    ensures { result ≡ spec.is_text value.now }
{
    matches!(value, Value::Text(_))
}

#[tactic(auto, unfolding(crate::specs::Operators::concatenation))]
fn concatenation(alloc: Global, left: &Value, right: &Value) -> Result<Value, Refusal>
    ensures { Answers (spec.concatenation left.now right.now) result }
{
    if !is_text(left) && !is_text(right) {
        return do_not_fit(Operator::Plus);
    }
    match (join_text(alloc, left)?, join_text(alloc, right)?) {
        (Some(a), Some(b)) => joined(alloc, &a, &b),
        _ => do_not_fit(Operator::Plus),
    }
}

#[tactic(auto, unfolding(crate::specs::Operators::arithmetic))]
fn difference(left: &Value, right: &Value) -> Result<Value, Refusal>
    ensures { Answers (spec.arithmetic Operator.Minus numbers.difference left.now right.now) result }
{
    match (left, right) {
        (Value::Num(a), Value::Num(b)) => number(number::difference(*a, *b)),
        _ => do_not_fit(Operator::Minus),
    }
}

#[tactic(auto, unfolding(crate::specs::Operators::arithmetic))]
fn product(left: &Value, right: &Value) -> Result<Value, Refusal>
    ensures { Answers (spec.arithmetic Operator.Times numbers.product left.now right.now) result }
{
    match (left, right) {
        (Value::Num(a), Value::Num(b)) => number(number::product(*a, *b)),
        _ => do_not_fit(Operator::Times),
    }
}

#[tactic(auto, unfolding(crate::specs::Operators::arithmetic))]
fn quotient(left: &Value, right: &Value) -> Result<Value, Refusal>
    ensures { Answers (spec.arithmetic Operator.Over numbers.quotient left.now right.now) result }
{
    match (left, right) {
        (Value::Num(a), Value::Num(b)) => number(number::quotient(*a, *b)),
        _ => do_not_fit(Operator::Over),
    }
}

#[tactic(auto, unfolding(crate::specs::Operators::arithmetic))]
fn remainder(left: &Value, right: &Value) -> Result<Value, Refusal>
    ensures { Answers (spec.arithmetic Operator.Remainder numbers.remainder left.now right.now) result }
{
    match (left, right) {
        (Value::Num(a), Value::Num(b)) => number(number::remainder(*a, *b)),
        _ => do_not_fit(Operator::Remainder),
    }
}

#[tactic(auto, unfolding(crate::specs::Operators::comparison, crate::specs::Operators::binary_of))]
fn less(left: &Value, right: &Value) -> Result<Value, Refusal>
    ensures { Answers (spec.binary_of Binary.Less left.now right.now) result }
{
    match (left, right) {
        (Value::Num(a), Value::Num(b)) => Ok(Value::Bool(*a < *b)),
        (Value::Text(a), Value::Text(b)) => Ok(Value::Bool(comes_before(a.as_str(), b.as_str()))),
        _ => do_not_fit(Operator::Less),
    }
}

#[tactic(auto, unfolding(crate::specs::Operators::comparison, crate::specs::Operators::binary_of))]
fn less_equal(left: &Value, right: &Value) -> Result<Value, Refusal>
    ensures { Answers (spec.binary_of Binary.LessEqual left.now right.now) result }
{
    match (left, right) {
        (Value::Num(a), Value::Num(b)) => Ok(Value::Bool(*a <= *b)),
        (Value::Text(a), Value::Text(b)) => Ok(Value::Bool(!comes_before(b.as_str(), a.as_str()))),
        _ => do_not_fit(Operator::LessEqual),
    }
}

#[tactic(auto, unfolding(crate::specs::Operators::comparison, crate::specs::Operators::binary_of))]
fn greater(left: &Value, right: &Value) -> Result<Value, Refusal>
    ensures { Answers (spec.binary_of Binary.Greater left.now right.now) result }
{
    match (left, right) {
        (Value::Num(a), Value::Num(b)) => Ok(Value::Bool(*a > *b)),
        (Value::Text(a), Value::Text(b)) => Ok(Value::Bool(comes_before(b.as_str(), a.as_str()))),
        _ => do_not_fit(Operator::Greater),
    }
}

#[tactic(auto, unfolding(crate::specs::Operators::comparison, crate::specs::Operators::binary_of))]
fn greater_equal(left: &Value, right: &Value) -> Result<Value, Refusal>
    ensures { Answers (spec.binary_of Binary.GreaterEqual left.now right.now) result }
{
    match (left, right) {
        (Value::Num(a), Value::Num(b)) => Ok(Value::Bool(*a >= *b)),
        (Value::Text(a), Value::Text(b)) => Ok(Value::Bool(!comes_before(a.as_str(), b.as_str()))),
        _ => do_not_fit(Operator::GreaterEqual),
    }
}

/// Whether a value counts as true. Takes no memory.
#[tactic(auto, unfolding(crate::specs::Operators::is_truthy))]
pub fn is_truthy(value: &Value) -> bool
    ensures { result ≡ spec.is_truthy value.now }
{
    match value {
        Value::Undefined | Value::Null => false,
        Value::Bool(b) => *b,
        Value::Num(n) => *n != 0,
        Value::Text(text) => !is_empty(text),
        _ => true,
    }
}

fn is_empty(text: &Text) -> bool
    ensures { result ≡ spec.is_empty text.now }
{
    text.is("")
}

#[tactic(auto, unfolding(crate::specs::Operators::negation))]
fn negation(operand: &Value) -> Result<Value, Refusal>
    ensures { Answers (spec.negation operand.now) result }
{
    match operand {
        Value::Num(n) => number(number::negated(*n)),
        _ => do_not_fit(Operator::Minus),
    }
}

#[tactic(auto, unfolding(crate::specs::Operators::itself))]
fn itself(operand: &Value) -> Result<Value, Refusal>
    ensures { Answers (spec.itself operand.now) result }
{
    match operand {
        Value::Num(n) => Ok(Value::Num(*n)),
        _ => do_not_fit(Operator::Plus),
    }
}

#[tactic(auto, unfolding(crate::specs::Operators::unary_of))]
fn unary_value(alloc: Global, op: Unary, operand: &Value) -> Result<Value, Refusal>
    ensures { Answers (spec.unary_of op operand.now) result }
{
    match op {
        Unary::Not => Ok(Value::Bool(!is_truthy(operand))),
        Unary::Minus => negation(operand),
        Unary::Plus => itself(operand),
        Unary::Typeof => Ok(Value::Text(plain(alloc, type_name(operand))?)),
    }
}
