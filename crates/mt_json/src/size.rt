ghost use Rattle.std.specs.Prelude.{◌≡◌, length, nat_le, IfOk};
ghost use Rattle.json.specs.Lex.{tokens};
ghost use Rattle.mt_json.specs.Size.{data_token_limit};

use json::{Reader, Scratch};
use mt_tree::{DATA_NODE_LIMIT, NoMemory};
use std::alloc::Global;

// One more than the tokens of data within the limits: eight for each node, and the brackets of a list.
const TOO_MANY_TOKENS: u64 = 8 * DATA_NODE_LIMIT + 3;

/// Whether the text has no more tokens than data within the limits can have. A JSON value takes up to 300 bytes a token, so
/// this is known before one is made; it takes as many bytes as the text has, and no longer than that many tokens take.
pub(crate) fn has_few_tokens(alloc: Global, text: &str) -> Result<bool, NoMemory>
    ensures { IfOk result (λ few. few ≡ nat_le (length (tokens text.now)) data_token_limit) }
{
    let mut scratch = Scratch::new(alloc);
    let mut reader = Reader::new(text, &mut scratch)?;
    for _ in 0..TOO_MANY_TOKENS {
        if reader.next().is_none() {
            return Ok(true);
        }
    }
    Ok(false)
}
