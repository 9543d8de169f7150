ghost use Rattle.std.specs.Prelude.{◌≡◌, Result, IfOk};
ghost use Rattle.mt_builtins.specs.Making.{ended};
ghost use Rattle.mt_builtins.specs.declared.made.Made.{Made as Made'};
ghost use Rattle.mt_ops.specs.Errors.{Answers};
ghost use Rattle.mt_ops.specs.declared.error.ErrorKind.{ErrorKind as ErrorKind'};

use crate::refusal::refuse;
use mt_eval_meaning::Done;
use mt_ops::Refusal;
use mt_tree::{Buffer, NoMemory};
use mt_value::{Cell, Property, Store, Value};
use std::alloc::Global;

/// What a builtin makes.
#[derive(Drop)]
pub enum Made {
    /// A value that needs no cell of its own.
    Value(Value),
    /// An array of these items.
    Array(Buffer<Value>),
    /// An object of these properties.
    Object(Buffer<Property>),
}

/// Puts what a builtin made behind the cells of the store, or throws its error.
pub fn finish(
    alloc: Global,
    made: Result<Made, Refusal>,
    store: &mut Store,
) -> Result<Done, NoMemory>
    ensures { (meant : Result Made' ErrorKind') → Answers meant made → IfOk result (λ done. (done, store.new) ≡ ended meant store.old) }
{
    match made {
        Ok(Made::Value(value)) => Ok(Done::Value(value)),
        Ok(Made::Array(items)) => {
            let at = store.add(Cell::Arr(items))?;
            Ok(Done::Value(Value::Arr(at)))
        }
        Ok(Made::Object(properties)) => {
            let at = store.add(Cell::Obj(properties))?;
            Ok(Done::Value(Value::Obj(at)))
        }
        Err(Refusal::Error(error)) => refuse(alloc, &error, store),
        Err(Refusal::NoMemory) => Err(NoMemory),
    }
}
