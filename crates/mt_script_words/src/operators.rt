ghost use Rattle.mt_script_words.specs.Outcome.{Gives};
ghost use Rattle.mt_script_words.specs.Operators.{arithmetic, comparison, equals, operator_at, operator_from};

use crate::refusal::CodeRefusal;
use crate::rest::first;
use mt_json::skip;
use mt_tree::Binary;

/// What stands between two operands.
#[derive(Clone, Copy, Debug, PartialEq, Eq)]
pub enum Operator {
    /// `a + b` and its like
    Binary(Binary),
    /// `a && b`
    And,
    /// `a || b`
    Or,
    /// `a = b`, or `a += b` and its like
    Assign(Option<Binary>),
    /// the first sign of `a ? b : c`
    Choice,
}

fn arithmetic(operator: Binary, second: u8, bytes: &[u8]) -> Result<(Operator, &[u8]), CodeRefusal>
    ensures { Gives (λ x. (x.0, x.1.now)) result (arithmetic operator second bytes.now) }
{
    if second == b'=' {
        Ok((Operator::Assign(Some(operator)), skip(bytes, 3)))
    } else {
        Ok((Operator::Binary(operator), skip(bytes, 2)))
    }
}

fn comparison(
    strict: Binary,
    equal: Binary,
    second: u8,
    bytes: &[u8],
) -> Result<(Operator, &[u8]), CodeRefusal>
    ensures { Gives (λ x. (x.0, x.1.now)) result (comparison strict equal second bytes.now) }
{
    if second == b'=' {
        Ok((Operator::Binary(equal), skip(bytes, 3)))
    } else {
        Ok((Operator::Binary(strict), skip(bytes, 2)))
    }
}

fn equals(second: u8, bytes: &[u8]) -> Result<(Operator, &[u8]), CodeRefusal>
    ensures { Gives (λ x. (x.0, x.1.now)) result (equals second bytes.now) }
{
    if second == b'=' {
        Ok((Operator::Binary(Binary::Same), skip(bytes, 4)))
    } else {
        Ok((Operator::Assign(None), skip(bytes, 2)))
    }
}

fn operator_from(first: u8, second: u8, bytes: &[u8]) -> Result<(Operator, &[u8]), CodeRefusal>
    ensures { Gives (λ x. (x.0, x.1.now)) result (operator_from first second bytes.now) }
{
    match first {
        b'+' => arithmetic(Binary::Add, second, bytes),
        b'-' => arithmetic(Binary::Sub, second, bytes),
        b'*' => arithmetic(Binary::Mul, second, bytes),
        b'/' => arithmetic(Binary::Div, second, bytes),
        b'%' => arithmetic(Binary::Rem, second, bytes),
        b'<' => comparison(Binary::Less, Binary::LessEqual, second, bytes),
        b'>' => comparison(Binary::Greater, Binary::GreaterEqual, second, bytes),
        b'=' => equals(second, bytes),
        b'!' => Ok((Operator::Binary(Binary::Different), skip(bytes, 4))),
        b'&' => Ok((Operator::And, skip(bytes, 3))),
        b'|' => Ok((Operator::Or, skip(bytes, 3))),
        b'?' => Ok((Operator::Choice, skip(bytes, 2))),
        _ => Err(CodeRefusal::NotCode),
    }
}

/// The operator that the bytes begin with, and what follows the space behind it.
///
/// # Errors
/// `NotCode` where they begin with none.
#[tactic(auto, unfolding(crate::specs::Operators::operator_at))]
pub fn read_operator(bytes: &[u8]) -> Result<(Operator, &[u8]), CodeRefusal>
    ensures { Gives (λ x. (x.0, x.1.now)) result (operator_at bytes.now) }
{
    let (b, rest) = first(bytes)?;
    let (second, _rest) = first(rest)?;
    operator_from(b, second, bytes)
}
