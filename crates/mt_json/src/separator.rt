ghost use Rattle.std.specs.Prelude.{◌≡◌, ◌++◌, OnOk, OnErr};
ghost use Rattle.mt_syntax.specs.DataText.{comma_if};

use mt_tree::{NoMemory, append};

/// Appends a comma, where something stands before.
///
/// # Errors
/// `NoMemory`; the list is then as before.
pub fn append_separator(something_before: bool, into: &mut Vec<u8>) -> Result<(), NoMemory>
    ensures text { OnOk result (into.new.items ≡ into.old.items ++ comma_if something_before) }
    ensures kept { OnErr result (into.new.items ≡ into.old.items) }
{
    if something_before {
        append(b",", into)
    } else {
        Ok(())
    }
}
