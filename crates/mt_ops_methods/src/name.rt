ghost use Rattle.std.specs.Prelude.{◌≡◌, true, IfOk};
ghost use Rattle.mt_ops_methods.specs.Arguments as spec;
ghost use Rattle.mt_ops.specs.Texts.{is_plain};
ghost use Rattle.mt_value.specs.Names.{is_same};

use mt_ops::{ErrorKind, plain};
use mt_tree::{NoMemory, Text};
use std::alloc::Global;

/// A method of texts or arrays.
#[derive(Clone, Copy)]
pub enum MethodName {
    /// `slice`, of both.
    Slice,
    /// `indexOf`, of both.
    IndexOf,
    /// `push`, of arrays.
    Push,
    /// `pop`, of arrays.
    Pop,
    /// `join`, of arrays.
    Join,
}

impl MethodName {
    /// The name as a program writes it.
    pub fn as_str(self) -> &'static str
        ensures text { result.now ≡ spec.word self }
        ensures ascii { is_plain result.now ≡ true }
    {
        match self {
            MethodName::Slice => "slice",
            MethodName::IndexOf => "indexOf",
            MethodName::Push => "push",
            MethodName::Pop => "pop",
            MethodName::Join => "join",
        }
    }
}

/// Whether a key is the name of that method.
fn names(key: &Text, method: MethodName) -> bool
    ensures { result ≡ is_same key.now (spec.word method) }
{
    key.is(method.as_str())
}

/// The method that a key names.
#[tactic(auto, unfolding(crate::specs::Arguments::named))]
pub fn named(key: &Text) -> Option<MethodName>
    ensures { result ≡ spec.named key.now }
{
    if names(key, MethodName::Slice) {
        Some(MethodName::Slice)
    } else if names(key, MethodName::IndexOf) {
        Some(MethodName::IndexOf)
    } else if names(key, MethodName::Push) {
        Some(MethodName::Push)
    } else if names(key, MethodName::Pop) {
        Some(MethodName::Pop)
    } else if names(key, MethodName::Join) {
        Some(MethodName::Join)
    } else {
        None
    }
}

/// The error of an argument that the method doesn't take.
pub fn bad_argument(alloc: Global, method: MethodName) -> Result<ErrorKind, NoMemory>
    ensures { IfOk result (λ error. error ≡ spec.bad_argument method) }
{
    Ok(ErrorKind::BadArgument(plain(alloc, method.as_str())?))
}

/// The error of a value that has no property of that key.
pub fn no_such(key: &Text) -> Result<ErrorKind, NoMemory>
    ensures { IfOk result (λ error. error ≡ ErrorKind.NoSuchProperty key.now) }
{
    Ok(ErrorKind::NoSuchProperty(key.share()?))
}
