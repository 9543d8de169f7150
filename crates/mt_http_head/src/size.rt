ghost use Rattle.std.specs.Prelude.{◌≡◌, MatchOption, false, true};
ghost use Rattle.std.specs.Str.Parse.{digits_value};
ghost use Rattle.mt_http_head.specs.Fields.{is_size};

// The most digits of a number of bytes.
const DIGIT_LIMIT: usize = 10;

/// The number of bytes that 1 to 10 digits tell.
#[tactic(auto, using(crate::proofs::Sizes::small_power, crate::proofs::Sizes::goes_on, crate::proofs::Sizes::no_digit, crate::proofs::Sizes::no_size, crate::proofs::Sizes::is_read, crate::proofs::Sizes::empty_is_none, crate::proofs::Sizes::long_is_none))]
pub(crate) fn size(value: &[u8]) -> Option<u64>
    ensures { MatchOption result (is_size value.now ≡ false) (λ bytes. (is_size value.now ≡ true) × (bytes ≡ digits_value 10 value.now)) }
{
    if value.is_empty() || value.len() > DIGIT_LIMIT {
        return None;
    }
    let mut number = 0u64;
    for byte in value {
        if !byte.is_ascii_digit() {
            return None;
        }
        number = number * 10 + u64::from(*byte - b'0');
    }
    Some(number)
}
