ghost use Rattle.std.specs.Prelude.{◌≡◌, ◌<◌, All, List, length, position, slice_get, Result, IfOk, IfSome};
ghost use Rattle.std.specs.Option.{option_copied};
ghost use Rattle.mt_ops_methods.specs.Arguments.{range as range'};
ghost use Rattle.mt_ops_methods.specs.Arrays as spec;
ghost use Rattle.mt_ops.specs.Equality.{same as same'};
ghost use Rattle.mt_ops.specs.Errors.{Answers, settled};
ghost use Rattle.mt_ops.specs.Lawful.{StaysLawful};
ghost use Rattle.mt_ops.specs.declared.error.ErrorKind.{ErrorKind as ErrorKind'};
ghost use Rattle.mt_value.specs.Lawful.{Lawful, LawfulValue};
ghost use Rattle.mt_value.specs.declared.value.Value.{Value as Value'};

use crate::argument::{argument, given, place_number, range};
use crate::change::{pop, push};
use crate::joining::join;
use crate::name::{MethodName, no_such};
use mt_ops::{Outcome, Refusal, same, settle, throw};
use mt_tree::{Buffer, NoMemory, Text};
use mt_value::{Address, Cell, Store, Value};
use std::alloc::Global;

/// The same values, as a list of their own.
fn shared(alloc: Global, items: &[Value]) -> Result<Buffer<Value>, NoMemory>
    ensures { IfOk result (λ list. list ≡ items.now) }
{
    let mut list = Buffer::new(alloc);
    for item in items {
        list.push(item.share()?)?;
    }
    Ok(list)
}

/// The items that the arguments of `slice` name.
fn part(
    alloc: Global,
    items: &[Value],
    from: Option<&Value>,
    to: Option<&Value>,
) -> Result<Buffer<Value>, Refusal>
    ensures { Answers (spec.part items.now (range' (length items.now) (option_copied from.entry) (option_copied to.entry))) result }
{
    let (from, to) = range(alloc, items.len(), from, to)?;
    Ok(shared(alloc, &items[from..to])?)
}

/// Puts a new array into the store, or throws the error in its place.
fn made(
    alloc: Global,
    items: Result<Buffer<Value>, Refusal>,
    store: &mut Store,
) -> Result<Outcome, NoMemory>
    ensures { (meant : Result (List Value') ErrorKind') → Answers meant items → IfOk result (λ outcome. (outcome, store.new) ≡ spec.made meant store.old) }
{
    match items {
        Ok(items) => {
            let at = store.add(Cell::Arr(items))?;
            Ok(Outcome::Value(Value::Arr(at)))
        }
        Err(Refusal::Error(error)) => throw(alloc, &error, store),
        Err(Refusal::NoMemory) => Err(NoMemory),
    }
}

fn first_same(items: &[Value], value: &Value) -> Option<usize>
    ensures place { result ≡ position (λ item. same' item value.now) items.now }
    ensures within { IfSome result (λ at. at < length items.now) }
{
    items.iter().position(|item| same(item, value))
}

/// The number of the first place of an item that is the same as the value.
#[tactic(auto, unfolding(crate::specs::Arrays::place))]
fn place(items: &[Value], value: &Value) -> Value
    ensures { result ≡ spec.place items.now value.now }
{
    place_number(first_same(items, value))
}

/// The items that `slice` gives of the array in a cell.
#[tactic(auto, unfolding(crate::specs::Arrays::part_at))]
fn part_at(
    alloc: Global,
    cell: Option<&Cell>,
    key: &Text,
    from: Option<&Value>,
    to: Option<&Value>,
) -> Result<Buffer<Value>, Refusal>
    ensures { Answers (spec.part_at (option_copied cell.entry) key.now (option_copied from.entry) (option_copied to.entry)) result }
{
    match cell {
        Some(Cell::Arr(items)) => part(alloc, items.items(), from, to),
        _ => Err(Refusal::Error(no_such(key)?)),
    }
}

/// The value of a method that leaves the store as it is.
#[tactic(auto, unfolding(crate::specs::Arrays::value_at))]
fn value_at(
    alloc: Global,
    cell: Option<&Cell>,
    method: Option<MethodName>,
    key: &Text,
    argument: Option<&Value>,
) -> Result<Value, Refusal>
    ensures { Answers (spec.value_at (option_copied cell.entry) method key.now (option_copied argument.entry)) result }
{
    match (cell, method) {
        (Some(Cell::Arr(items)), Some(MethodName::IndexOf)) => {
            Ok(place(items.items(), &given(argument)?))
        }
        (Some(Cell::Arr(items)), Some(MethodName::Join)) => join(alloc, items.items(), argument),
        _ => Err(Refusal::Error(no_such(key)?)),
    }
}

/// A new array of a part of the array in a cell.
fn sliced(
    alloc: Global,
    at: Address,
    key: &Text,
    from: Option<&Value>,
    to: Option<&Value>,
    store: &mut Store,
) -> Result<Outcome, NoMemory>
    ensures meant { IfOk result (λ outcome. (outcome, store.new) ≡ spec.made (spec.part_at (slice_get store.old at) key.now (option_copied from.entry) (option_copied to.entry)) store.old) }
    ensures lawful { Lawful store.old → IfOk result (λ outcome. StaysLawful store.old store.new outcome) }
{
    let items = part_at(alloc, store.get(at), key, from, to);
    made(alloc, items, store)
}

fn valued(
    alloc: Global,
    at: Address,
    method: Option<MethodName>,
    key: &Text,
    argument: Option<&Value>,
    store: &mut Store,
) -> Result<Outcome, NoMemory>
    ensures meant { IfOk result (λ outcome. (outcome, store.new) ≡ settled (spec.value_at (slice_get store.old at) method key.now (option_copied argument.entry)) store.old) }
    ensures lawful { Lawful store.old → IfOk result (λ outcome. StaysLawful store.old store.new outcome) }
{
    let answer = value_at(alloc, store.get(at), method, key, argument);
    settle(alloc, answer, store)
}

/// The value of a method of an array, or the error that it throws.
#[tactic(auto, unfolding(crate::specs::Arrays::array_method), using(crate::proofs::Lawfulness::given_lawful))]
pub fn array_method(
    alloc: Global,
    at: Address,
    method: Option<MethodName>,
    key: &Text,
    arguments: &[Value],
    store: &mut Store,
) -> Result<Outcome, NoMemory>
    ensures meant { IfOk result (λ outcome. (outcome, store.new) ≡ spec.array_method method at key.now arguments.now store.old) }
    ensures lawful { Lawful store.old → All (LawfulValue store.old) arguments.now → IfOk result (λ outcome. StaysLawful store.old store.new outcome) }
{
    let first = argument(arguments, 0);
    match method {
        Some(MethodName::Slice) => sliced(alloc, at, key, first, argument(arguments, 1), store),
        Some(MethodName::Push) => push(alloc, at, key, given(first)?, store),
        Some(MethodName::Pop) => pop(alloc, at, key, store),
        _ => valued(alloc, at, method, key, first, store),
    }
}
