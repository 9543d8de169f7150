ghost use Rattle.mt_json.specs.Reading.{first_at};
ghost use Rattle.mt_script_words.specs.Outcome.{Gives};

use crate::refusal::CodeRefusal;

/// The first byte, and the others.
///
/// # Errors
/// `NotCode` where there is none.
pub fn first(bytes: &[u8]) -> Result<(u8, &[u8]), CodeRefusal>
    ensures { Gives (λ x. (x.0, x.1.now)) result (first_at bytes.now) }
{
    match bytes {
        [] => Err(CodeRefusal::NotCode),
        [b, rest @ ..] => Ok((*b, rest)),
    }
}
