ghost use Rattle.std.specs.Prelude.{◌≡◌, ◌++◌, OnOk};
ghost use Rattle.mt_builtins.specs.Lines.{line};

use mt_json::json_text;
use mt_tree::{NoMemory, Text, append};

/// Appends the line by which a builtin such as `log` writes a text: the word, a space, the JSON text of the text, and a line feed.
///
/// # Errors
/// `NoMemory`; a beginning of the line may then have been appended.
pub fn append_line(word: &str, text: &Text, into: &mut Vec<u8>) -> Result<(), NoMemory>
    ensures { OnOk result (into.new.items ≡ into.old.items ++ line word.now text.now) }
{
    append(word.as_bytes(), into)?;
    append(b" ", into)?;
    json_text(text, into)?;
    append(b"\n", into)
}
