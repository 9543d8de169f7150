ghost use Rattle.std.specs.Prelude.{◌≡◌, true, All, List, slice_get, IfOk};
ghost use Rattle.std.specs.Option.{option_copied};
ghost use Rattle.mt_builtins.specs.Builtins as spec;
ghost use Rattle.mt_builtins.specs.Lawful.{LeavesLawful};
ghost use Rattle.mt_builtins.specs.Making.{ended};
ghost use Rattle.mt_ops_methods.specs.Arguments as arguments;
ghost use Rattle.mt_ops.specs.Errors.{Answers};
ghost use Rattle.mt_ops.specs.Errors as errors;
ghost use Rattle.mt_ops.specs.Texts.{is_plain, join_text as join_text'};
ghost use Rattle.mt_value.specs.Lawful.{Lawful, LawfulValue};
ghost use Rattle.mt_value.specs.declared.cell.Cell.{Cell as Cell'};
ghost use Rattle.mt_value.specs.declared.value.Value.{Value as Value'};

use crate::made::{Made, finish};
use crate::number::number_in;
use crate::refusal::bad_argument;
use mt_eval_meaning::Done;
use mt_ops::{ErrorKind, Refusal, join_text, plain};
use mt_tree::{Buffer, NoMemory, Text};
use mt_value::{Native, Property, Store, Value};
use std::alloc::Global;

/// What stands in a text for an argument, `None` exactly where nothing does. A missing argument is undefined.
fn text_of(alloc: Global, argument: Option<&Value>) -> Result<Option<Text>, NoMemory>
    ensures { IfOk result (λ text. text ≡ join_text' (arguments.given (option_copied argument.entry))) }
{
    match argument {
        Some(value) => join_text(alloc, value),
        None => join_text(alloc, &Value::Undefined),
    }
}

/// The text that stands for the first argument of the builtin of that name, which is undefined where it is missing. The name is of
/// ASCII characters.
///
/// # Errors
/// `BadArgument` with the name exactly where no text stands for the argument; `NoMemory`.
pub fn text_argument(alloc: Global, name: &str, arguments: &[Value]) -> Result<Text, Refusal>
    requires { is_plain name.now ≡ true }
    ensures { Answers (spec.text_of name.now (slice_get arguments.now 0)) result }
{
    match text_of(alloc, arguments.first())? {
        Some(text) => Ok(text),
        None => Err(Refusal::Error(bad_argument(alloc, name)?)),
    }
}

/// `String(v)`
#[tactic(auto, unfolding(crate::specs::Builtins::called))]
fn string(alloc: Global, arguments: &[Value]) -> Result<Made, Refusal>
    ensures { Answers (spec.called Native.String (slice_get arguments.now 0)) result }
{
    Ok(Made::Value(Value::Text(text_argument(alloc, "String", arguments)?)))
}

/// The number that an argument is or writes.
fn number_of(argument: Option<&Value>) -> Option<i64>
    ensures { result ≡ spec.number_of (option_copied argument.entry) }
{
    match argument {
        Some(Value::Num(n)) => Some(*n),
        Some(Value::Text(text)) => number_in(text),
        _ => None,
    }
}

/// `Number(v)`
#[tactic(auto, unfolding(crate::specs::Builtins::called))]
fn number(alloc: Global, argument: Option<&Value>) -> Result<Made, Refusal>
    ensures { Answers (spec.called Native.Number (option_copied argument.entry)) result }
{
    match number_of(argument) {
        Some(n) => Ok(Made::Value(Value::Num(n))),
        None => Err(Refusal::Error(bad_argument(alloc, "Number")?)),
    }
}

/// The message that the argument of `Error` gives.
fn message_of(alloc: Global, argument: Option<&Value>) -> Result<Option<Text>, NoMemory>
    ensures { IfOk result (λ text. text ≡ spec.message_of (option_copied argument.entry)) }
{
    match argument {
        None => Ok(Some(plain(alloc, "")?)),
        Some(Value::Text(message)) => Ok(Some(message.share()?)),
        Some(_) => Ok(None),
    }
}

fn text_property(alloc: Global, name: &str, text: Text) -> Result<Property, NoMemory>
    requires { is_plain name.now ≡ true }
    ensures { IfOk result (λ p. p ≡ errors.text_property name.now text) }
{
    Ok(Property {
        name: plain(alloc, name)?,
        value: Value::Text(text),
    })
}

/// An object with the name `Error` and a message.
fn error_object(alloc: Global, message: Text) -> Result<Made, NoMemory>
    ensures { IfOk result (λ made. Answers (spec.error_made (Ok message)) (Ok made)) }
{
    let name = plain(alloc, "Error")?;
    let mut properties = Buffer::new(alloc);
    properties.push(text_property(alloc, "name", name)?)?;
    properties.push(text_property(alloc, "message", message)?)?;
    Ok(Made::Object(properties))
}

/// `Error(m)`
#[tactic(auto, unfolding(crate::specs::Builtins::called))]
fn error(alloc: Global, argument: Option<&Value>) -> Result<Made, Refusal>
    ensures { Answers (spec.called Native.Error (option_copied argument.entry)) result }
{
    match message_of(alloc, argument)? {
        Some(message) => Ok(error_object(alloc, message)?),
        None => Err(Refusal::Error(bad_argument(alloc, "Error")?)),
    }
}

#[tactic(auto, unfolding(crate::specs::Builtins::called))]
fn made(alloc: Global, which: Native, arguments: &[Value]) -> Result<Made, Refusal>
    ensures { Answers (spec.native which arguments.now) result }
{
    match which {
        Native::String => string(alloc, arguments),
        Native::Number => number(alloc, arguments.first()),
        Native::Error => error(alloc, arguments.first()),
        Native::Object
        | Native::Array
        | Native::Document
        | Native::Log
        | Native::Alert
        | Native::Event => Err(Refusal::Error(ErrorKind::NotFunction)),
    }
}

/// Calls a builtin of both tiers by its value, with its arguments in order. Further arguments are ignored.
///
/// | Call | Value |
/// |---|---|
/// | `String(v)` | a text itself, and the text that stands for a number, a truth value, null or undefined; a missing v is undefined |
/// | `Number(v)` | a number itself, and the number within 2^53 - 1 in size that a text of digits writes, with `-` before them or not |
/// | `Error(m)` | a new object with the `name` `Error` and the `message` m, a text; a missing m is the empty text |
///
/// It throws `BadArgument` with the builtin's name for any other argument, and `NotFunction` for every builtin that is none of these.
/// A call takes no steps beside the one of its node.
///
/// # Errors
/// `NoMemory`.
pub fn native(
    alloc: Global,
    which: Native,
    arguments: &[Value],
    store: &mut Store,
) -> Result<Done, NoMemory>
    ensures meant { IfOk result (λ done. (done, store.new) ≡ ended (spec.native which arguments.now) store.old) }
    ensures lawful { Lawful store.old → All (LawfulValue store.old) arguments.now → IfOk result (λ done. LeavesLawful store.old store.new done) }
{
    let answer = made(alloc, which, arguments);
    finish(alloc, answer, store)
}

/// The law that making the text of a value costs no step: a text itself isn't made anew, and any other value has fewer than 256 units of
/// UTF-16.
#[tactic(auto, using(crate::proofs::Units::costs_nothing))]
pub fn texts_made_cost_nothing()
    ensures { (store : List Cell') (value : Value') → LawfulValue store value → spec.text_cost value ≡ 0 }
{}
