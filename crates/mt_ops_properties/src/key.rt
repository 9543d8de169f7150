ghost use Rattle.std.specs.Prelude.{◌≡◌, IfOk, codes};
ghost use Rattle.mt_ops_properties.specs.Keys as spec;
ghost use Rattle.mt_value.specs.Names.{is_same};

use mt_ops::{ErrorKind, join_text, plain, type_name};
use mt_tree::{NoMemory, Text};
use mt_value::Value;
use std::alloc::Global;

/// The key as an error names it: a text itself, else what stands for the value in a text, else the name of its type.
pub fn key_text(alloc: Global, key: &Value) -> Result<Text, NoMemory>
    ensures { IfOk result (λ text. text ≡ spec.key_text key.now) }
{
    match join_text(alloc, key)? {
        Some(text) => Ok(text),
        None => plain(alloc, type_name(key)),
    }
}

/// The error of a value that has no property of that key.
pub fn no_such(alloc: Global, key: &Value) -> Result<ErrorKind, NoMemory>
    ensures { IfOk result (λ error. error ≡ ErrorKind.NoSuchProperty (spec.key_text key.now)) }
{
    Ok(ErrorKind::NoSuchProperty(key_text(alloc, key)?))
}

/// The error of a key that can't name a property of an object.
pub fn bad_name(alloc: Global, key: &Value) -> Result<ErrorKind, NoMemory>
    ensures { IfOk result (λ error. error ≡ ErrorKind.BadPropertyName (spec.key_text key.now)) }
{
    Ok(ErrorKind::BadPropertyName(key_text(alloc, key)?))
}

/// Whether a name is that of the length. Takes no memory.
pub fn is_length(name: &Text) -> bool
    ensures { result ≡ is_same name.now (codes "length") }
{
    name.is("length")
}
