ghost use Rattle.std.specs.Prelude.{◌≡◌, ◌++◌, true, OnOk, IfOk};
ghost use Rattle.std.specs.Fmt.{signed_decimal};
ghost use Rattle.std.specs.Str.{chars};
ghost use Rattle.std.specs.String.{string_bytes};
ghost use Rattle.mt_ops.specs.Errors.{cut, Answers};
ghost use Rattle.mt_ops.specs.Texts as spec;
ghost use Rattle.mt_ops.specs.Texts.{is_plain};
ghost use Rattle.mt_value.specs.Limits.{text_fits};

use crate::error::ErrorKind;
use crate::outcome::Refusal;
use mt_tree::{NoMemory, TEXT_LIMIT, Text};
use mt_value::{Native, Value};
use std::alloc::Global;

/// Puts a text behind another.
#[tactic(auto, using(crate::proofs::Texts::pushed))]
pub fn push_text(into: &mut String, text: &str) -> Result<(), NoMemory>
    ensures { OnOk result (chars (string_bytes into.new) ≡ chars (string_bytes into.old) ++ chars text.now) }
{
    into.push_str(text)?;
    Ok(())
}

/// A name, cut to its first 64 characters.
fn shortened(alloc: Global, name: &str) -> Result<String, NoMemory>
    ensures { IfOk result (λ made. chars (string_bytes made) ≡ cut (chars name.now)) }
{
    let mut made = String::new(alloc);
    let mut room: usize = 64;
    for c in name.chars() {
        if room == 0 {
            break;
        }
        made.push(c)?;
        room -= 1;
    }
    Ok(made)
}

/// A text of ASCII characters.
#[tactic(auto, using(crate::proofs::Texts::plain))]
pub fn plain(alloc: Global, text: &str) -> Result<Text, NoMemory>
    requires { is_plain text.now ≡ true }
    ensures { IfOk result (λ made. made ≡ text.now) }
{
    Text::from_str(alloc, text)
}

/// A message that ends in a name, which is cut to its first 64 characters.
#[tactic(auto, using(crate::proofs::Texts::no_characters, crate::proofs::Texts::plain))]
pub fn phrase(alloc: Global, before: &str, name: &str) -> Result<Text, NoMemory>
    requires { is_plain before.now ≡ true }
    ensures { IfOk result (λ made. made ≡ before.now ++ cut (chars name.now)) }
{
    let mut made = String::new(alloc);
    push_text(&mut made, before)?;
    push_text(&mut made, shortened(alloc, name)?.as_str())?;
    Text::from_str(alloc, made.as_str())
}

/// A message that begins with a name, which is cut to its first 64 characters.
#[tactic(auto, using(crate::proofs::Texts::plain))]
pub fn sentence(alloc: Global, name: &str, after: &str) -> Result<Text, NoMemory>
    requires { is_plain after.now ≡ true }
    ensures { IfOk result (λ made. made ≡ cut (chars name.now) ++ after.now) }
{
    let mut made = shortened(alloc, name)?;
    push_text(&mut made, after)?;
    Text::from_str(alloc, made.as_str())
}

fn decimal(alloc: Global, n: i64) -> Result<Text, NoMemory>
    ensures { IfOk result (λ made. made ≡ signed_decimal n) }
{
    let digits = n.to_string(alloc)?;
    Text::from_str(alloc, digits.as_str())
}

/// What stands in a text for a value, `None` exactly where nothing does.
///
/// # Errors
/// `NoMemory`.
#[tactic(auto, unfolding(crate::specs::Texts::join_text))]
pub fn join_text(alloc: Global, value: &Value) -> Result<Option<Text>, NoMemory>
    ensures { IfOk result (λ text. text ≡ spec.join_text value.now) }
{
    match value {
        Value::Undefined => Ok(Some(plain(alloc, "undefined")?)),
        Value::Null => Ok(Some(plain(alloc, "null")?)),
        Value::Bool(true) => Ok(Some(plain(alloc, "true")?)),
        Value::Bool(false) => Ok(Some(plain(alloc, "false")?)),
        Value::Num(n) => Ok(Some(decimal(alloc, *n)?)),
        Value::Text(text) => Ok(Some(text.share()?)),
        _ => Ok(None),
    }
}

/// Whether two texts are short enough to be one.
#[tactic(auto, using(crate::proofs::Texts::fits_by_units))]
fn fits(a: &Text, b: &Text) -> bool
    ensures { result ≡ text_fits (a.now ++ b.now) }
{
    a.units().saturating_add(b.units()) <= TEXT_LIMIT
}

/// Two texts as one.
pub fn joined(alloc: Global, a: &Text, b: &Text) -> Result<Value, Refusal>
    ensures { Answers (spec.joined a.now b.now) result }
{
    if !fits(a, b) {
        return Err(Refusal::Error(ErrorKind::TextTooLong));
    }
    Ok(Value::Text(concatenated(alloc, a, b)?))
}

#[tactic(auto, using(crate::proofs::Texts::no_characters))]
fn concatenated(alloc: Global, a: &Text, b: &Text) -> Result<Text, NoMemory>
    ensures { IfOk result (λ made. made ≡ a.now ++ b.now) }
{
    let mut made = String::new(alloc);
    push_text(&mut made, a.as_str())?;
    push_text(&mut made, b.as_str())?;
    Text::from_str(alloc, made.as_str())
}

/// What `typeof` answers. Takes no memory.
#[tactic(auto, unfolding(crate::specs::Texts::type_name))]
pub fn type_name(value: &Value) -> &'static str
    ensures text { result.now ≡ spec.type_name value.now }
    ensures ascii { is_plain result.now ≡ true }
{
    match value {
        Value::Undefined => "undefined",
        Value::Bool(_) => "boolean",
        Value::Num(_) => "number",
        Value::Text(_) => "string",
        Value::Fun(_) | Value::Svc(_) => "function",
        Value::Native(native) => match native {
            Native::Document | Native::Event => "object",
            _ => "function",
        },
        _ => "object",
    }
}
