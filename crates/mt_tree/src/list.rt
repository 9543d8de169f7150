ghost use Rattle.std.specs.Prelude.{◌≡◌, ◌++◌, ◌∷◌, [], OnErr, OnOk};

use crate::fault::NoMemory;

/// Puts the item behind the others.
///
/// # Errors
/// `NoMemory`; the list is then as before, and the item is dropped.
pub fn push<T: Drop>(into: &mut Vec<T>, item: T) -> Result<(), NoMemory>
    ensures ok { OnOk result (into.new.items ≡ into.old.items ++ item ∷ []) }
    ensures err { OnErr result (into.new.items ≡ into.old.items) }
{
    match into.push(item) {
        Ok(()) => Ok(()),
        Err(_refused) => Err(NoMemory),
    }
}
