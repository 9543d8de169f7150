ghost use Rattle.std.specs.Prelude.{◌≡◌, true, ◌-◌, nat_le, length, if◌then◌else◌, slice_get, IfOk};
ghost use Rattle.std.specs.Option.{option_copied};
ghost use Rattle.mt_builtins.specs.Builtins as spec;
ghost use Rattle.mt_builtins.specs.Lawful.{LeavesLawful};
ghost use Rattle.mt_builtins.specs.Making.{ended_for};
ghost use Rattle.mt_ops.specs.Errors.{Answers};
ghost use Rattle.mt_ops.specs.Texts.{is_plain};
ghost use Rattle.mt_value.specs.Lawful.{Lawful};
ghost use Rattle.mt_value.specs.Names.{is_same};

use crate::made::{Made, finish};
use crate::refusal::bad_argument;
use mt_eval_meaning::{Budget, Done, Stop};
use mt_ops::{ErrorKind, Refusal};
use mt_tree::{Buffer, NoMemory, Text};
use mt_value::{Cell, Native, Property, Store, Value};
use std::alloc::Global;

/// A builtin that is a method.
#[derive(Clone, Copy)]
pub enum MethodName {
    /// `Object.keys`
    Keys,
    /// `Array.isArray`
    IsArray,
}

/// Whether a key is the name. The name is of ASCII characters.
fn is_name(key: &Text, name: &str) -> bool
    requires { is_plain name.now ≡ true }
    ensures { result ≡ is_same key.now name.now }
{
    key.is(name)
}

fn of_object(key: &Text) -> Option<MethodName>
    ensures { result ≡ spec.of_object key.now }
{
    if is_name(key, "keys") {
        Some(MethodName::Keys)
    } else {
        None
    }
}

fn of_array(key: &Text) -> Option<MethodName>
    ensures { result ≡ spec.of_array key.now }
{
    if is_name(key, "isArray") {
        Some(MethodName::IsArray)
    } else {
        None
    }
}

/// The method that a key names.
#[tactic(auto, unfolding(crate::specs::Builtins::named))]
fn named(base: &Value, key: &Text) -> Option<MethodName>
    ensures { result ≡ spec.named base.now key.now }
{
    match base {
        Value::Native(Native::Object) => of_object(key),
        Value::Native(Native::Array) => of_array(key),
        _ => None,
    }
}

/// The properties of an object, `None` exactly where the argument is none.
#[tactic(auto, unfolding(crate::specs::Builtins::properties_of))]
fn properties_of<'s>(argument: Option<&Value>, store: &'s Store) -> Option<&'s [Property]>
    ensures { option_copied result ≡ spec.properties_of (option_copied argument.entry) store.now }
{
    match argument {
        Some(Value::Obj(at)) => match store.get(*at) {
            Some(Cell::Obj(properties)) => Some(properties.items()),
            _ => None,
        },
        _ => None,
    }
}

/// The names of the properties, in order.
fn names(alloc: Global, properties: &[Property]) -> Result<Buffer<Value>, NoMemory>
    ensures { IfOk result (λ list. list ≡ spec.names properties.now) }
{
    let mut list = Buffer::new(alloc);
    for property in properties {
        list.push(Value::Text(property.name.share()?))?;
    }
    Ok(list)
}

/// `Object.keys(o)`
fn keys(alloc: Global, argument: Option<&Value>, store: &Store) -> Result<Made, Refusal>
    ensures { Answers (spec.keys (spec.properties_of (option_copied argument.entry) store.now)) result }
{
    match properties_of(argument, store) {
        Some(properties) => Ok(Made::Array(names(alloc, properties)?)),
        None => Err(Refusal::Error(bad_argument(alloc, "Object.keys")?)),
    }
}

fn is_array(argument: Option<&Value>) -> bool
    ensures { result ≡ spec.is_array (option_copied argument.entry) }
{
    matches!(argument, Some(Value::Arr(_)))
}

#[tactic(auto, unfolding(crate::specs::Builtins::method))]
fn made(
    alloc: Global,
    base: &Value,
    key: &Text,
    arguments: &[Value],
    store: &Store,
) -> Result<Made, Refusal>
    ensures { Answers (spec.method base.now key.now arguments.now store.now) result }
{
    match named(base, key) {
        Some(MethodName::Keys) => keys(alloc, arguments.first(), store),
        Some(MethodName::IsArray) => Ok(Made::Value(Value::Bool(is_array(arguments.first())))),
        None => Err(Refusal::Error(ErrorKind::NoSuchProperty(key.share()?))),
    }
}

/// The steps that a call costs beside the one of its node.
#[tactic(auto, unfolding(crate::specs::Builtins::method_cost))]
fn cost(base: &Value, key: &Text, arguments: &[Value], store: &Store) -> u64
    ensures { result ≡ spec.method_cost base.now key.now arguments.now store.now }
{
    match named(base, key) {
        Some(MethodName::Keys) => match properties_of(arguments.first(), store) {
            Some(properties) => properties.len() as u64,
            None => 0,
        },
        _ => 0,
    }
}

/// Takes the steps where that many are left, and else none.
fn takes(budget: &mut Budget, steps: u64) -> bool
    ensures taken { result ≡ nat_le steps budget.old.left }
    ensures left { budget.new.left ≡ (if nat_le steps budget.old.left then budget.old.left - steps else budget.old.left) }
{
    if steps > budget.left {
        return false;
    }
    budget.left -= steps;
    true
}

/// Calls a method of a builtin by its name, with its arguments in order. Further arguments are ignored.
///
/// | Call | Value |
/// |---|---|
/// | `Object.keys(o)` | a new array of the names of an object's properties, in the order of their making |
/// | `Array.isArray(v)` | whether v is an array |
///
/// It throws `BadArgument` of `Object.keys` where o isn't an object, and `NoSuchProperty` where the base is another value or the key another
/// name. `Object.keys` takes a step for each name beside the one of its node. Where these are more than what is left, the answer is
/// the stop `Budget`, and neither the budget nor the store changes.
///
/// # Errors
/// `NoMemory`.
pub fn method(
    alloc: Global,
    base: &Value,
    key: &Text,
    arguments: &[Value],
    store: &mut Store,
    budget: &mut Budget,
) -> Result<Done, NoMemory>
    ensures meant { IfOk result (λ done. (done, store.new, budget.new.left) ≡ ended_for (spec.method_cost base.now key.now arguments.now store.old) (spec.method base.now key.now arguments.now store.old) store.old budget.old.left) }
    ensures lawful { Lawful store.old → IfOk result (λ done. LeavesLawful store.old store.new done) }
{
    if !takes(budget, cost(base, key, arguments, store)) {
        return Ok(Done::Stop(Stop::Budget));
    }
    let answer = made(alloc, base, key, arguments, store);
    finish(alloc, answer, store)
}
