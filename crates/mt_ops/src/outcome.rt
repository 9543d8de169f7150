ghost use Rattle.std.specs.Prelude.{◌≡◌, true, Result, Ok, Err, IfOk};
ghost use Rattle.mt_ops.specs.Errors as spec;
ghost use Rattle.mt_ops.specs.Errors.{settled, Answers};
ghost use Rattle.mt_ops.specs.Lawful.{StaysLawful};
ghost use Rattle.mt_ops.specs.Texts.{is_plain};
ghost use Rattle.mt_ops.specs.declared.error.ErrorKind.{ErrorKind as ErrorKind'};
ghost use Rattle.mt_value.specs.Lawful.{Lawful};
ghost use Rattle.mt_value.specs.declared.value.Value.{Value as Value'};

use crate::error::ErrorKind;
use crate::text::plain;
use mt_tree::{Buffer, NoMemory, Text};
use mt_value::{Cell, Property, Store, Value};
use std::alloc::Global;

/// What an operation comes to.
#[derive(Drop)]
pub enum Outcome {
    /// A value.
    Value(Value),
    /// A value that is thrown.
    Throw(Value),
}

/// Why an operation gives no value.
#[derive(Drop)]
pub enum Refusal {
    /// Memory ran out.
    NoMemory,
    /// An error that is to be thrown.
    Error(ErrorKind),
}

impl From<NoMemory> for Refusal {
    ghost use Rattle.std.specs.Prelude.{◌≡◌};
    ghost use Rattle.mt_ops.specs.declared.outcome.Refusal.TheVariants as refusal;

    ghost from_gives = { λ _ made. made ≡ refusal.NoMemory };

    fn from(_fault: NoMemory) -> Refusal {
        Refusal::NoMemory
    }
}

impl From<ErrorKind> for Refusal {
    ghost use Rattle.std.specs.Prelude.{◌≡◌};
    ghost use Rattle.mt_ops.specs.declared.outcome.Refusal.TheVariants as refusal;

    ghost from_gives = { λ error made. made ≡ refusal.Error error };

    fn from(error: ErrorKind) -> Refusal {
        Refusal::Error(error)
    }
}

fn text_property(alloc: Global, name: &str, text: Text) -> Result<Property, NoMemory>
    requires { is_plain name.now ≡ true }
    ensures { IfOk result (λ p. p ≡ record { name = name.now; value = Value.Text text }) }
{
    Ok(Property {
        name: plain(alloc, name)?,
        value: Value::Text(text),
    })
}

fn error_cell(alloc: Global, error: &ErrorKind) -> Result<Cell, NoMemory>
    ensures { IfOk result (λ cell. cell ≡ spec.error_cell error.now) }
{
    let name = plain(alloc, error.name())?;
    let message = error.message(alloc)?;
    let mut properties = Buffer::new(alloc);
    properties.push(text_property(alloc, "name", name)?)?;
    properties.push(text_property(alloc, "message", message)?)?;
    Ok(Cell::Obj(properties))
}

/// Throws an error: a fresh object with the properties `name` and `message` goes last into the store.
///
/// # Errors
/// `NoMemory`.
pub fn throw(alloc: Global, error: &ErrorKind, store: &mut Store) -> Result<Outcome, NoMemory>
    ensures meant { IfOk result (λ outcome. (outcome, store.new) ≡ settled (Err error.now) store.old) }
    ensures lawful { Lawful store.old → IfOk result (λ outcome. StaysLawful store.old store.new outcome) }
{
    let at = store.add(error_cell(alloc, error)?)?;
    Ok(Outcome::Throw(Value::Obj(at)))
}

/// Gives the value that an operation came to, or throws its error.
///
/// # Errors
/// `NoMemory`.
pub fn settle(
    alloc: Global,
    answer: Result<Value, Refusal>,
    store: &mut Store,
) -> Result<Outcome, NoMemory>
    ensures { (meant : Result Value' ErrorKind') → Answers meant answer → IfOk result (λ outcome. (outcome, store.new) ≡ settled meant store.old) }
{
    match answer {
        Ok(value) => Ok(Outcome::Value(value)),
        Err(Refusal::Error(error)) => throw(alloc, &error, store),
        Err(Refusal::NoMemory) => Err(NoMemory),
    }
}
