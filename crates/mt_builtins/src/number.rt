ghost use Rattle.std.specs.Prelude.{◌≡◌};
ghost use Rattle.mt_builtins.specs.Numbers as spec;

use mt_tree::Text;

const GREATEST: i64 = 9_007_199_254_740_991;

/// The number, where it is in range.
fn within(n: i64) -> Option<i64>
    ensures { result ≡ spec.within n }
{
    if -GREATEST <= n && n <= GREATEST {
        Some(n)
    } else {
        None
    }
}

/// The number in range that a text of digits writes, with `-` before them or not; `None` of every other text. Takes no memory.
pub fn number_in(text: &Text) -> Option<i64>
    ensures { result ≡ spec.number_in text.now }
{
    let text = text.as_str();
    // std reads a leading `+` as a sign, and the language doesn't.
    if text.starts_with('+') {
        return None;
    }
    match text.parse::<i64>() {
        Ok(n) => within(n),
        Err(_) => None,
    }
}
