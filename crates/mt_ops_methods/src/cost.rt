ghost use Rattle.std.specs.Prelude.{◌≡◌, ◌+◌, length, map, sum, slice_get};
ghost use Rattle.std.specs.Option.{option_copied};
ghost use Rattle.mt_ops_methods.specs.Arguments.{range};
ghost use Rattle.mt_ops_methods.specs.Costs as spec;
ghost use Rattle.mt_tree.specs.Text.{units_of};

use crate::argument::{argument, is_range};
use crate::joining::{are_shown, joined_units};
use crate::name::{MethodName, named};
use mt_tree::Text;
use mt_value::{Cell, Store, Value};

/// How many units of UTF-16 of the texts that a call works through cost one step.
const UNITS_OF_A_STEP: u64 = 256;

/// What a call works through.
#[derive(Clone, Copy)]
pub struct Work {
    /// The units of UTF-16 of the texts that it makes, compares, searches or cuts, and the greatest number of the type where
    /// they are more.
    pub units: u64,
    /// The items that it walks.
    pub items: usize,
}

fn steps(work: Work) -> u64
    ensures { result ≡ spec.steps work }
{
    (work.units / UNITS_OF_A_STEP).saturating_add(work.items as u64)
}

/// What a search or a cut of a text works through.
fn whole(text: &Text) -> Work
    ensures { result ≡ spec.work (units_of text.now) 0 }
{
    Work {
        units: text.units(),
        items: 0,
    }
}

fn nothing() -> Work
    ensures { result ≡ spec.work 0 0 }
{
    Work { units: 0, items: 0 }
}

fn cut_work(text: &Text, from: Option<&Value>, to: Option<&Value>) -> Work
    ensures { result ≡ spec.cut_work text.now (range (units_of text.now) (option_copied from.entry) (option_copied to.entry)) }
{
    if is_range(text.units() as usize, from, to) {
        whole(text)
    } else {
        nothing()
    }
}

#[tactic(auto, unfolding(crate::specs::Costs::text_work))]
fn text_work(text: &Text, method: Option<MethodName>, arguments: &[Value]) -> Work
    ensures { result ≡ spec.text_work text.now method arguments.now }
{
    match method {
        Some(MethodName::Slice) => cut_work(text, argument(arguments, 0), argument(arguments, 1)),
        Some(MethodName::IndexOf) => match argument(arguments, 0) {
            Some(Value::Text(_)) => whole(text),
            _ => nothing(),
        },
        _ => nothing(),
    }
}

fn part_work(items: &[Value], from: Option<&Value>, to: Option<&Value>) -> Work
    ensures { result ≡ spec.part_work items.now (range (length items.now) (option_copied from.entry) (option_copied to.entry)) }
{
    if is_range(items.len(), from, to) {
        Work {
            units: 0,
            items: items.len(),
        }
    } else {
        nothing()
    }
}

/// The units of an item and of a text with which it is compared.
fn pair_units(item: &Value, units: u64) -> u64
    ensures { result ≡ spec.counted (spec.pair_units units item.now) }
{
    match item {
        Value::Text(text) => text.units().saturating_add(units),
        _ => 0,
    }
}

/// The units of all pairs.
fn all_pairs(items: &[Value], units: u64) -> u64
    ensures { result ≡ spec.counted (sum (map (spec.pair_units units) items.now)) }
{
    let mut total: u64 = 0;
    for item in items {
        total = total.saturating_add(pair_units(item, units));
    }
    total
}

fn compared(items: &[Value], sought: Option<&Value>) -> u64
    ensures { result ≡ spec.counted (spec.compared items.now (option_copied sought.entry)) }
{
    match sought {
        Some(Value::Text(sought)) => all_pairs(items, sought.units()),
        _ => 0,
    }
}

#[tactic(auto, unfolding(crate::specs::Costs::join_work))]
fn join_work(items: &[Value], separator: Option<&Value>) -> Work
    ensures { result ≡ spec.join_work items.now (option_copied separator.entry) }
{
    match separator {
        Some(Value::Text(separator)) => Work {
            units: if are_shown(items) {
                joined_units(items, separator)
            } else {
                0
            },
            items: items.len(),
        },
        _ => nothing(),
    }
}

#[tactic(auto, unfolding(crate::specs::Costs::array_work))]
fn array_work(cell: Option<&Cell>, method: Option<MethodName>, arguments: &[Value]) -> Work
    ensures { result ≡ spec.array_work (option_copied cell.entry) method arguments.now }
{
    match (cell, method) {
        (Some(Cell::Arr(items)), Some(MethodName::Slice)) => {
            part_work(
                items.items(),
                argument(arguments, 0),
                argument(arguments, 1),
            )
        }
        (Some(Cell::Arr(items)), Some(MethodName::IndexOf)) => Work {
            units: compared(items.items(), argument(arguments, 0)),
            items: items.items().len(),
        },
        (Some(Cell::Arr(items)), Some(MethodName::Join)) => {
            join_work(items.items(), argument(arguments, 0))
        }
        _ => nothing(),
    }
}

#[tactic(auto, unfolding(crate::specs::Costs::method_work))]
fn method_work(base: &Value, key: &Text, arguments: &[Value], store: &Store) -> Work
    ensures { result ≡ spec.method_work base.now key.now arguments.now store.now }
{
    match base {
        Value::Text(text) => text_work(text, named(key), arguments),
        Value::Arr(at) => array_work(store.get(*at), named(key), arguments),
        _ => nothing(),
    }
}

/// The steps that a call of a method costs beside the one of its node: one for each 256 whole units of the texts that it
/// makes, compares, searches or cuts, and one for each item that it walks. It does none of the call's work but the counting
/// of units, and takes no memory.
///
/// A search or a cut of a text counts that whole text. `indexOf` of an array walks all items, wherever it finds one, and
/// where it seeks a text it counts both texts of a pair for each item that is a text. `slice` and `join` walk all items,
/// and `join` makes the joined text, also where that is too long. A call that is refused for its arguments or its places
/// costs nothing, but a cut inside a character counts, and so do the items of a `join` that finds one without a text.
/// Where the units or the steps pass 2^64 - 1 they count as that number.
#[tactic(auto, unfolding(crate::specs::Costs::method_cost))]
pub fn method_cost(base: &Value, key: &Text, arguments: &[Value], store: &Store) -> u64
    ensures { result ≡ spec.method_cost base.now key.now arguments.now store.now }
{
    steps(method_work(base, key, arguments, store))
}
