ghost use Rattle.std.specs.Prelude.{◌≡◌, ◌<◌, ◌+◌, ◌-◌, ◌^◌, ◌++◌, ◌∷◌, [], List, length, take, pos, slice_get, Some, IfOk};
ghost use Rattle.mt_ops_methods.specs.Arguments.{given};
ghost use Rattle.mt_ops_methods.specs.Arrays as spec;
ghost use Rattle.mt_ops.specs.Lawful.{StaysLawful};
ghost use Rattle.mt_value.specs.Lawful.{Lawful, LawfulValue};
ghost use Rattle.mt_value.specs.declared.value.Value.{Value as Value'};

use crate::name::no_such;
use mt_ops::{Outcome, throw};
use mt_tree::{NoMemory, Text};
use mt_value::{Address, Cell, Store, Value};
use std::alloc::Global;

/// The greatest number of items of an array: the greatest number of the language.
const MOST: usize = 9_007_199_254_740_991;

/// Puts a value behind the items of an array, and gives their new number. Another cell stays as it is.
fn push_item(cell: &mut Cell, value: Value) -> Result<Value, NoMemory>
    ensures room { (items : List Value') → cell.old ≡ Cell.Arr items → IfOk result (λ _. length items + 1 < 2 ^ 53) }
    ensures meant { (items : List Value') → cell.old ≡ Cell.Arr items → IfOk result (λ n. (n ≡ Value.Num (pos (length items + 1))) × (cell.new ≡ Cell.Arr (items ++ value ∷ []))) }
{
    match cell {
        Cell::Arr(items) => {
            let count = items.items().len();
            if count >= MOST {
                return Err(NoMemory);
            }
            items.push(value)?;
            Ok(Value::Num(count as i64 + 1))
        }
        _ => Ok(Value::Undefined),
    }
}

/// Takes the last item out of an array, undefined where there is none. Another cell stays as it is.
fn pop_item(cell: &mut Cell) -> Value
    ensures { (items : List Value') → cell.old ≡ Cell.Arr items → (result ≡ given (slice_get items (length items - 1))) × (cell.new ≡ Cell.Arr (take (length items - 1) items)) }
{
    match cell {
        Cell::Arr(items) => match items.pop() {
            Some(last) => last,
            None => Value::Undefined,
        },
        _ => Value::Undefined,
    }
}

/// Puts a value behind the items of the array at an address.
fn pushed(at: Address, value: Value, store: &mut Store) -> Result<Outcome, NoMemory>
    requires { at < length store.old }
    ensures meant { (items : List Value') → slice_get store.old at ≡ Some (Cell.Arr items) → IfOk result (λ outcome. (outcome, store.new) ≡ spec.pushed items value at store.old) }
    ensures lawful { (items : List Value') → slice_get store.old at ≡ Some (Cell.Arr items) → Lawful store.old → LawfulValue store.old value → IfOk result (λ outcome. StaysLawful store.old store.new outcome) }
{
    // The cell is taken out, changed and put back; want of memory alone leaves another in its place.
    let mut cell = store.exchange(at, Cell::Variable(None));
    let count = push_item(&mut cell, value)?;
    let _placeholder = store.exchange(at, cell);
    Ok(Outcome::Value(count))
}

/// Takes the last item out of the array at an address.
fn popped(at: Address, store: &mut Store) -> Outcome
    requires { at < length store.old }
    ensures meant { (items : List Value') → slice_get store.old at ≡ Some (Cell.Arr items) → (result, store.new) ≡ spec.popped items at store.old }
    ensures lawful { (items : List Value') → slice_get store.old at ≡ Some (Cell.Arr items) → Lawful store.old → StaysLawful store.old store.new result }
{
    let mut cell = store.exchange(at, Cell::Variable(None));
    let last = pop_item(&mut cell);
    let _placeholder = store.exchange(at, cell);
    Outcome::Value(last)
}

/// The value of `push`.
#[tactic(auto, unfolding(crate::specs::Arrays::pushed_at))]
pub fn push(
    alloc: Global,
    at: Address,
    key: &Text,
    value: Value,
    store: &mut Store,
) -> Result<Outcome, NoMemory>
    ensures meant { IfOk result (λ outcome. (outcome, store.new) ≡ spec.pushed_at (slice_get store.old at) key.now value at store.old) }
    ensures lawful { Lawful store.old → LawfulValue store.old value → IfOk result (λ outcome. StaysLawful store.old store.new outcome) }
{
    match store.get(at) {
        Some(Cell::Arr(_)) => pushed(at, value, store),
        _ => throw(alloc, &no_such(key)?, store),
    }
}

/// The value of `pop`.
#[tactic(auto, unfolding(crate::specs::Arrays::popped_at))]
pub fn pop(alloc: Global, at: Address, key: &Text, store: &mut Store) -> Result<Outcome, NoMemory>
    ensures meant { IfOk result (λ outcome. (outcome, store.new) ≡ spec.popped_at (slice_get store.old at) key.now at store.old) }
    ensures lawful { Lawful store.old → IfOk result (λ outcome. StaysLawful store.old store.new outcome) }
{
    match store.get(at) {
        Some(Cell::Arr(_)) => Ok(popped(at, store)),
        _ => throw(alloc, &no_such(key)?, store),
    }
}
