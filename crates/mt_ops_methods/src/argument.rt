ghost use Rattle.std.specs.Prelude.{◌≡◌, ℕ, ◌^◌, ◌<◌, ◌≤◌, IfOk, IfSome, is_ok, slice_get};
ghost use Rattle.std.specs.Option.{option_copied};
ghost use Rattle.mt_ops_methods.specs.Arguments as spec;
ghost use Rattle.mt_ops.specs.Errors.{Answers};

use crate::name::{MethodName, bad_argument};
use mt_ops::{ErrorKind, Refusal};
use mt_tree::NoMemory;
use mt_value::Value;
use std::alloc::Global;

/// An argument by its number from 0, `None` exactly where it is missing.
pub fn argument(arguments: &[Value], number: usize) -> Option<&Value>
    ensures { option_copied result ≡ slice_get arguments.now number }
{
    arguments.get(number)
}

/// The value of an argument, undefined where it is missing.
pub fn given(argument: Option<&Value>) -> Result<Value, NoMemory>
    ensures { IfOk result (λ value. value ≡ spec.given (option_copied argument.entry)) }
{
    match argument {
        None => Ok(Value::Undefined),
        Some(value) => value.share(),
    }
}

/// A number as a place from 0 to a length.
fn place(length: usize, n: i64) -> Option<usize>
    ensures meant { result ≡ spec.place length n }
    ensures within { IfSome result (λ at. at ≤ length) }
{
    if n < 0 || n as usize > length {
        return None;
    }
    Some(n as usize)
}

/// The places that the two arguments of `slice` name, where both are numbers.
#[tactic(auto, unfolding(crate::specs::Arguments::bounds))]
fn bounds(
    length: usize,
    from: Option<&Value>,
    to: Option<&Value>,
) -> Option<(Option<usize>, Option<usize>)>
    ensures meant { result ≡ spec.bounds length (option_copied from.entry) (option_copied to.entry) }
    ensures within { IfSome result (λ p. IfSome p.1 (λ at. at ≤ length)) }
{
    match (from, to) {
        (Some(Value::Num(from)), None) => Some((place(length, *from), Some(length))),
        (Some(Value::Num(from)), Some(Value::Num(to))) => {
            Some((place(length, *from), place(length, *to)))
        }
        _ => None,
    }
}

fn ordered(from: Option<usize>, to: Option<usize>) -> Result<(usize, usize), ErrorKind>
    ensures meant { result ≡ spec.ordered from to }
    ensures within { (length : ℕ) → IfSome to (λ at. at ≤ length) → IfOk result (λ p. (p.0 ≤ p.1) × (p.1 ≤ length)) }
{
    match (from, to) {
        (Some(from), Some(to)) if from <= to => Ok((from, to)),
        _ => Err(ErrorKind::IndexOutOfRange),
    }
}

/// The range that the two arguments of `slice` name in a text or an array of that length.
pub fn range(
    alloc: Global,
    length: usize,
    from: Option<&Value>,
    to: Option<&Value>,
) -> Result<(usize, usize), Refusal>
    ensures meant { Answers (spec.range length (option_copied from.entry) (option_copied to.entry)) result }
    ensures within { IfOk result (λ p. (p.0 ≤ p.1) × (p.1 ≤ length)) }
{
    match bounds(length, from, to) {
        None => Err(Refusal::Error(bad_argument(alloc, MethodName::Slice)?)),
        Some((from, to)) => Ok(ordered(from, to)?),
    }
}

/// Whether the two arguments of `slice` name a range. Takes no memory.
pub fn is_range(length: usize, from: Option<&Value>, to: Option<&Value>) -> bool
    ensures { result ≡ is_ok (spec.range length (option_copied from.entry) (option_copied to.entry)) }
{
    match bounds(length, from, to) {
        None => false,
        Some((from, to)) => ordered(from, to).is_ok(),
    }
}

/// The number that stands for a place, and -1 for none.
pub fn place_number(place: Option<usize>) -> Value
    requires { IfSome place (λ n. n < 2 ^ 63) }
    ensures { result ≡ spec.place_number place }
{
    match place {
        None => Value::Num(-1),
        Some(n) => Value::Num(n as i64),
    }
}
