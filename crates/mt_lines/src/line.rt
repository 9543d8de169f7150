ghost use Rattle.std.specs.Prelude.{◌≡◌, [], MatchOption};
ghost use Rattle.mt_lines.specs.Lines.{without_return, IsFirstLine};

use crate::cutting::{before_back, place_of};

/// The line without a carriage return at its end.
pub fn without_return(line: &[u8]) -> &[u8]
    ensures { result.now ≡ without_return line.now }
{
    before_back(b"\r", line).unwrap_or(line)
}

/// The first line of the text, and what follows it.
pub fn first_line(text: &[u8]) -> Option<(&[u8], &[u8])>
    ensures { MatchOption result (text.now ≡ []) (λ parts. IsFirstLine text.now parts.0.now parts.1.now) }
{
    if text.is_empty() {
        return None;
    }
    let (line, rest) = text.split_at(place_of(b'\n', text));
    match rest.split_first() {
        Some((_line_feed, after)) => Some((without_return(line), after)),
        None => Some((line, rest)),
    }
}
