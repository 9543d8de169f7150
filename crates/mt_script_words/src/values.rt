ghost use Rattle.std.specs.Prelude.{◌≡◌};
ghost use Rattle.mt_syntax.specs.Shape.{is_number};
ghost use Rattle.mt_script_words.specs.Outcome.{Gives};
ghost use Rattle.mt_script_words.specs.Values.{datum_of, number_of, unsigned_in};

use crate::refusal::CodeRefusal;
use mt_json::{DataRefusal, read_data};
use mt_tree::Data;
use std::alloc::Global;

// The least number that is too large, 2^53.
const TOO_LARGE: i64 = 9_007_199_254_740_992;

/// The datum of which the bytes are the tagged JSON.
///
/// # Errors
/// `NotCode` where no datum within the limits has this text; `NoMemory`.
pub fn datum(alloc: Global, bytes: &[u8]) -> Result<Data, CodeRefusal>
    ensures { Gives (λ x. x) result (datum_of bytes.now) }
{
    match read_data(alloc, bytes) {
        Ok(datum) => Ok(datum),
        Err(DataRefusal::NotData) => Err(CodeRefusal::NotCode),
        Err(DataRefusal::NoMemory) => Err(CodeRefusal::NoMemory),
    }
}

fn is_number(number: i64) -> bool
    ensures { result ≡ is_number number }
{
    0 <= number && number < TOO_LARGE
}

fn number_in(datum: &Data) -> Result<i64, CodeRefusal>
    ensures { Gives (λ x. x) result (unsigned_in datum.now) }
{
    match datum {
        Data::Num(number) => {
            if is_number(*number) {
                Ok(*number)
            } else {
                Err(CodeRefusal::NotCode)
            }
        }
        Data::Undefined
        | Data::Null
        | Data::Bool(_)
        | Data::Text(_)
        | Data::Arr(_)
        | Data::Obj(_)
        | Data::Svc(_) => Err(CodeRefusal::NotCode),
    }
}

/// The number that the word spells.
///
/// # Errors
/// `NotCode` where it spells none up to 2^53 - 1; `NoMemory`.
#[tactic(auto, unfolding(crate::specs::Values::number_of))]
pub fn number(alloc: Global, word: &[u8]) -> Result<i64, CodeRefusal>
    ensures { Gives (λ x. x) result (number_of word.now) }
{
    number_in(&datum(alloc, word)?)
}
