ghost use Rattle.std.specs.Prelude.{◌≡◌, All, IfOk};
ghost use Rattle.mt_ops_methods.specs.Methods as spec;
ghost use Rattle.mt_ops.specs.Lawful.{StaysLawful};
ghost use Rattle.mt_value.specs.Lawful.{Lawful, LawfulValue};

use crate::array::array_method;
use crate::name::{named, no_such};
use crate::text::text_method;
use mt_ops::{Outcome, settle, throw};
use mt_tree::{NoMemory, Text};
use mt_value::{Store, Value};
use std::alloc::Global;

/// Calls a method of a text or an array by its name, with its arguments in order. Missing ones are undefined where the
/// method takes any value, and further ones are ignored.
///
/// | Base | Method | Value |
/// |---|---|---|
/// | text | `slice(a)`, `slice(a, b)` | the part from unit a, counted from 0, to unit b or the end |
/// | text | `indexOf(t)` | the first place of the text t in units, or -1 |
/// | array | `slice(a)`, `slice(a, b)` | a new array of the items from a to b or the end |
/// | array | `indexOf(v)` | the first place of an item that is the same as v by `===`, or -1 |
/// | array | `push(v)` | the number of items with v behind them |
/// | array | `pop()` | the last item, which is taken out; undefined where there is none |
/// | array | `join(t)` | the texts of the items with the text t between each two |
///
/// It throws, the first that holds: `NoSuchProperty` where the base has no such method, as any other value has none;
/// `BadArgument` where a place isn't a number, or t isn't a text, or an item of `join` has no text; `IndexOutOfRange` where
/// a place isn't from 0 to the length or a is more than b; `CutInsideCharacter` where a place lies inside a surrogate pair;
/// `TextTooLong` where a joined text would pass 1,048,576 units, and then nothing was joined.
///
/// # Errors
/// `NoMemory`, also where an array would pass 2^53 - 1 items.
#[tactic(auto, unfolding(crate::specs::Methods::method))]
pub fn method(
    alloc: Global,
    base: &Value,
    key: &Text,
    arguments: &[Value],
    store: &mut Store,
) -> Result<Outcome, NoMemory>
    ensures meant { IfOk result (λ outcome. (outcome, store.new) ≡ spec.method base.now key.now arguments.now store.old) }
    ensures lawful { Lawful store.old → LawfulValue store.old base.now → All (LawfulValue store.old) arguments.now → IfOk result (λ outcome. StaysLawful store.old store.new outcome) }
{
    match base {
        Value::Text(text) => {
            let answer = text_method(alloc, text, named(key), key, arguments);
            settle(alloc, answer, store)
        }
        Value::Arr(at) => array_method(alloc, *at, named(key), key, arguments, store),
        _ => throw(alloc, &no_such(key)?, store),
    }
}
