ghost use Rattle.std.specs.Prelude.{◌≡◌, ◌++◌, true, codes, IfOk};
ghost use Rattle.std.specs.Option.{option_copied};
ghost use Rattle.std.specs.Str.{chars};
ghost use Rattle.std.specs.String.{string_bytes};
ghost use Rattle.mt_ops.specs.Texts.{is_plain};
ghost use Rattle.mt_ops_properties.specs.ErrorText as spec;

use crate::key::key_text;
use crate::object::place_of;
use mt_ops::{plain, push_text};
use mt_tree::{ERROR_LIMIT, NoMemory, Text};
use mt_value::{Cell, Property, Store, Value};
use std::alloc::Global;

/// The text of a value that was thrown and not caught, cut to 4,096 bytes of UTF-8 at a character's boundary:
/// `name: message` of an object whose properties `name` and `message` are texts, else what stands for the value in a text,
/// else the name of its type.
///
/// # Errors
/// `NoMemory`.
pub fn error_text(alloc: Global, thrown: &Value, store: &Store) -> Result<Text, NoMemory>
    ensures { IfOk result (λ text. text ≡ spec.error_text store.now thrown.now) }
{
    let whole = thrown_text(alloc, thrown, store)?;
    let front = within_bytes(alloc, whole.as_str())?;
    Text::from_str(alloc, front.as_str())
}

#[tactic(auto, unfolding(crate::specs::ErrorText::thrown_text))]
fn thrown_text(alloc: Global, thrown: &Value, store: &Store) -> Result<Text, NoMemory>
    ensures { IfOk result (λ text. text ≡ spec.thrown_text store.now thrown.now) }
{
    match thrown {
        Value::Obj(at) => match error_of(alloc, store.get(*at))? {
            Some(text) => Ok(text),
            None => key_text(alloc, thrown),
        },
        _ => key_text(alloc, thrown),
    }
}

fn error_of(alloc: Global, cell: Option<&Cell>) -> Result<Option<Text>, NoMemory>
    ensures { IfOk result (λ text. text ≡ spec.error_of (option_copied cell.entry)) }
{
    match cell {
        Some(Cell::Obj(properties)) => {
            let name = property_named(alloc, "name", properties.items())?;
            let message = property_named(alloc, "message", properties.items())?;
            titled(alloc, name, message)
        }
        _ => Ok(None),
    }
}

fn property_named<'a>(
    alloc: Global,
    name: &str,
    properties: &'a [Property],
) -> Result<Option<&'a Value>, NoMemory>
    requires { is_plain name.now ≡ true }
    ensures { IfOk result (λ value. option_copied value ≡ spec.property_named name.now properties.now) }
{
    let name = plain(alloc, name)?;
    match place_of(&name, properties) {
        Some(at) => Ok(Some(&properties[at].value)),
        None => Ok(None),
    }
}

fn titled(
    alloc: Global,
    name: Option<&Value>,
    message: Option<&Value>,
) -> Result<Option<Text>, NoMemory>
    ensures { IfOk result (λ text. text ≡ spec.titled (option_copied name.entry) (option_copied message.entry)) }
{
    match (name, message) {
        (Some(Value::Text(name)), Some(Value::Text(message))) => {
            Ok(Some(with_colon(alloc, name, message)?))
        }
        _ => Ok(None),
    }
}

#[tactic(auto, using(mt_ops::proofs::Texts::no_characters, mt_ops::proofs::Texts::plain))]
fn with_colon(alloc: Global, name: &Text, message: &Text) -> Result<Text, NoMemory>
    ensures { IfOk result (λ text. text ≡ name.now ++ (codes ": " ++ message.now)) }
{
    let mut made = String::new(alloc);
    push_text(&mut made, name.as_str())?;
    push_text(&mut made, ": ")?;
    push_text(&mut made, message.as_str())?;
    Text::from_str(alloc, made.as_str())
}

/// As many characters as fit.
fn within_bytes(alloc: Global, text: &str) -> Result<String, NoMemory>
    ensures { IfOk result (λ made. chars (string_bytes made) ≡ spec.within_bytes 4096 (chars text.now)) }
{
    let mut made = String::new(alloc);
    let mut room = ERROR_LIMIT;
    for c in text.chars() {
        if c.len_utf8() > room {
            break;
        }
        made.push(c)?;
        room -= c.len_utf8();
    }
    Ok(made)
}
