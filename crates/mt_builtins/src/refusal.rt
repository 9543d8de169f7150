ghost use Rattle.std.specs.Prelude.{◌≡◌, true, Err, IfOk};
ghost use Rattle.mt_builtins.specs.Lawful.{LeavesLawful};
ghost use Rattle.mt_builtins.specs.Making.{ended};
ghost use Rattle.mt_ops.specs.Texts.{is_plain};
ghost use Rattle.mt_value.specs.Lawful.{Lawful};

use mt_eval_meaning::Done;
use mt_ops::{ErrorKind, Outcome, plain, throw};
use mt_tree::{NoMemory, Text};
use mt_value::Store;
use std::alloc::Global;

/// Throws an error: a fresh object with the properties `name` and `message` goes last into the store.
///
/// # Errors
/// `NoMemory`.
pub fn refuse(alloc: Global, error: &ErrorKind, store: &mut Store) -> Result<Done, NoMemory>
    ensures meant { IfOk result (λ done. (done, store.new) ≡ ended (Err error.now) store.old) }
    ensures lawful { Lawful store.old → IfOk result (λ done. LeavesLawful store.old store.new done) }
{
    match throw(alloc, error, store)? {
        Outcome::Value(value) => Ok(Done::Value(value)),
        Outcome::Throw(value) => Ok(Done::Throw(value)),
    }
}

/// Throws that a value has no property of that key.
///
/// # Errors
/// `NoMemory`.
pub fn no_property(alloc: Global, key: &Text, store: &mut Store) -> Result<Done, NoMemory>
    ensures meant { IfOk result (λ done. (done, store.new) ≡ ended (Err (ErrorKind.NoSuchProperty key.now)) store.old) }
    ensures lawful { Lawful store.old → IfOk result (λ done. LeavesLawful store.old store.new done) }
{
    let error = ErrorKind::NoSuchProperty(key.share()?);
    refuse(alloc, &error, store)
}

/// The error of an argument that the builtin of that name doesn't take. The name is of ASCII characters.
pub fn bad_argument(alloc: Global, name: &str) -> Result<ErrorKind, NoMemory>
    requires { is_plain name.now ≡ true }
    ensures { IfOk result (λ error. error ≡ ErrorKind.BadArgument name.now) }
{
    Ok(ErrorKind::BadArgument(plain(alloc, name)?))
}
