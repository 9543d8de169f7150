//! References of a text between tags or in quotes.

ghost use Rattle.std.specs.Prelude.{◌≡◌, option_map};
ghost use Rattle.std.specs.Str.{chars};
ghost use Rattle.mt_parser_marks.specs.Values.{named, references};

/// What the text behind an `&` names at its front, and the rest; `None` where it is no reference.
pub fn reference(text: &str) -> Option<(char, &str)>
    ensures { option_map (λ r. (r.0, chars r.1.now)) result ≡ named references (chars text.now) }
{
    if let Some(rest) = text.strip_prefix("amp;") {
        Some(('&', rest))
    } else if let Some(rest) = text.strip_prefix("lt;") {
        Some(('<', rest))
    } else if let Some(rest) = text.strip_prefix("gt;") {
        Some(('>', rest))
    } else if let Some(rest) = text.strip_prefix("quot;") {
        Some(('"', rest))
    } else {
        None
    }
}
