ghost use Rattle.mt_script_words.specs.Outcome.{Gives};
ghost use Rattle.mt_script_words.specs.Words.{short, text_in};

use crate::refusal::CodeRefusal;
use mt_tree::{TEXT_LIMIT, Text};
use std::alloc::Global;
use std::str;

fn short(text: Text) -> Result<Text, CodeRefusal>
    ensures { Gives (λ x. x) result (short text) }
{
    if text.units() <= TEXT_LIMIT {
        Ok(text)
    } else {
        Err(CodeRefusal::NotCode)
    }
}

/// The text that the bytes are in UTF-8, of at most 1,048,576 units of UTF-16.
///
/// # Errors
/// `NotCode` where it is longer, or where they are no UTF-8; `NoMemory`.
pub(crate) fn short_text(alloc: Global, bytes: &[u8]) -> Result<Text, CodeRefusal>
    ensures { Gives (λ x. x) result (text_in bytes.now) }
{
    match str::from_utf8(bytes) {
        Ok(characters) => short(Text::from_str(alloc, characters)?),
        Err(_refused) => Err(CodeRefusal::NotCode),
    }
}
