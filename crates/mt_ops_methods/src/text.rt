ghost use Rattle.std.specs.Prelude.{◌≡◌};
ghost use Rattle.std.specs.Option.{option_copied};
ghost use Rattle.mt_ops_methods.specs.Arguments.{range as range'};
ghost use Rattle.mt_ops_methods.specs.Texts as spec;
ghost use Rattle.mt_ops.specs.Errors.{Answers};
ghost use Rattle.mt_tree.specs.Text.{units_of};

use crate::argument::{argument, place_number, range};
use crate::name::{MethodName, bad_argument, no_such};
use mt_ops::{ErrorKind, Refusal};
use mt_tree::{Text, cut, find};
use mt_value::Value;
use std::alloc::Global;

/// The part of a text that the arguments of `slice` name.
fn part(
    alloc: Global,
    text: &Text,
    from: Option<&Value>,
    to: Option<&Value>,
) -> Result<Value, Refusal>
    ensures { Answers (spec.part text.now (range' (units_of text.now) (option_copied from.entry) (option_copied to.entry))) result }
{
    let (from, to) = range(alloc, text.units() as usize, from, to)?;
    match cut(alloc, text, from, to)? {
        None => Err(Refusal::Error(ErrorKind::CutInsideCharacter)),
        Some(part) => Ok(Value::Text(part)),
    }
}

/// The first place of the argument of `indexOf` in a text.
#[tactic(auto, unfolding(crate::specs::Texts::place))]
fn place(alloc: Global, text: &Text, sought: Option<&Value>) -> Result<Value, Refusal>
    ensures { Answers (spec.place text.now (option_copied sought.entry)) result }
{
    match sought {
        Some(Value::Text(sought)) => Ok(place_number(find(text, sought))),
        _ => Err(Refusal::Error(bad_argument(alloc, MethodName::IndexOf)?)),
    }
}

/// The value of a method of a text.
#[tactic(auto, unfolding(crate::specs::Texts::text_method))]
pub fn text_method(
    alloc: Global,
    text: &Text,
    method: Option<MethodName>,
    key: &Text,
    arguments: &[Value],
) -> Result<Value, Refusal>
    ensures { Answers (spec.text_method text.now method key.now arguments.now) result }
{
    match method {
        Some(MethodName::Slice) => part(
            alloc,
            text,
            argument(arguments, 0),
            argument(arguments, 1),
        ),
        Some(MethodName::IndexOf) => place(alloc, text, argument(arguments, 0)),
        _ => Err(Refusal::Error(no_such(key)?)),
    }
}
