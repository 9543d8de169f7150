ghost use Rattle.std.specs.Prelude.{◌≡◌, neg_ℤ};
ghost use Rattle.mt_ops.specs.Numbers as spec;

use crate::error::ErrorKind;
use mt_tree::NUMBER_LIMIT;

/// The number, where it is in range.
fn within(n: i64) -> Result<i64, ErrorKind>
    ensures { result ≡ spec.within n }
{
    if -NUMBER_LIMIT <= n && n <= NUMBER_LIMIT {
        Ok(n)
    } else {
        Err(ErrorKind::NumberOutOfRange)
    }
}

pub fn sum(a: i64, b: i64) -> Result<i64, ErrorKind>
    ensures { result ≡ spec.sum a b }
{
    match a.checked_add(b) {
        Some(n) => within(n),
        None => Err(ErrorKind::NumberOutOfRange),
    }
}

pub fn difference(a: i64, b: i64) -> Result<i64, ErrorKind>
    ensures { result ≡ spec.difference a b }
{
    match a.checked_sub(b) {
        Some(n) => within(n),
        None => Err(ErrorKind::NumberOutOfRange),
    }
}

pub fn product(a: i64, b: i64) -> Result<i64, ErrorKind>
    ensures { result ≡ spec.product a b }
{
    match a.checked_mul(b) {
        Some(n) => within(n),
        None => Err(ErrorKind::NumberOutOfRange),
    }
}

pub fn negated(n: i64) -> Result<i64, ErrorKind>
    ensures { result ≡ spec.within (neg_ℤ n) }
{
    match n.checked_neg() {
        Some(n) => within(n),
        None => Err(ErrorKind::NumberOutOfRange),
    }
}

pub fn quotient(a: i64, b: i64) -> Result<i64, ErrorKind>
    ensures { result ≡ spec.quotient a b }
{
    if b == 0 {
        return Err(ErrorKind::DivisionByZero);
    }
    // Only this quotient can pass the type's range.
    if b == -1 {
        return negated(a);
    }
    if a % b != 0 {
        return Err(ErrorKind::InexactDivision);
    }
    within(a / b)
}

pub fn remainder(a: i64, b: i64) -> Result<i64, ErrorKind>
    ensures { result ≡ spec.remainder a b }
{
    if b == 0 {
        return Err(ErrorKind::DivisionByZero);
    }
    if b == -1 {
        return Ok(0);
    }
    within(a % b)
}
