ghost use Rattle.std.specs.Prelude.{◌≡◌};
ghost use Rattle.std.specs.Str.{bytes_eq};
ghost use Rattle.mt_schedule.specs.Reading.{keyword_in};

use mt_tree::EventKind;

/// The first word of a command.
#[derive(Clone, Copy, Debug, PartialEq, Eq)]
pub enum Keyword {
    /// `load`
    Load,
    /// `click`, `input` or `change`
    Event(EventKind),
    /// `serve`
    Serve,
    /// `deliver`
    Deliver,
    /// `lose`
    Lose,
}

/// Whether these are the same bytes.
pub fn same_bytes(a: &[u8], b: &[u8]) -> bool
    ensures { result ≡ bytes_eq a.now b.now }
{
    a == b
}

/// The word that these bytes are.
pub fn keyword_of(bytes: &[u8]) -> Option<Keyword>
    ensures { result ≡ keyword_in bytes.now }
{
    if same_bytes(bytes, b"load") {
        Some(Keyword::Load)
    } else if same_bytes(bytes, b"click") {
        Some(Keyword::Event(EventKind::Click))
    } else if same_bytes(bytes, b"input") {
        Some(Keyword::Event(EventKind::Input))
    } else if same_bytes(bytes, b"change") {
        Some(Keyword::Event(EventKind::Change))
    } else if same_bytes(bytes, b"serve") {
        Some(Keyword::Serve)
    } else if same_bytes(bytes, b"deliver") {
        Some(Keyword::Deliver)
    } else if same_bytes(bytes, b"lose") {
        Some(Keyword::Lose)
    } else {
        None
    }
}
