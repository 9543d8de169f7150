ghost use Rattle.std.specs.Prelude.{◌≡◌};
ghost use Rattle.std.specs.List.{list_any};
ghost use Rattle.std.specs.Str.{bytes_eq};
ghost use Rattle.mt_small.specs.Name.{builtins};
ghost use Rattle.mt_tree.specs.Tables.{is_among};

use crate::name::same_bytes;
use mt_tree::builtin;

const BUILTINS: [&str; 9] = [
    builtin::OBJECT,
    builtin::ARRAY,
    builtin::STRING,
    builtin::NUMBER,
    builtin::ERROR,
    builtin::LOG,
    builtin::ALERT,
    builtin::DOCUMENT,
    builtin::EVENT,
];

fn is_listed(words: &[&str], name: &[u8]) -> bool
    ensures { result ≡ list_any (λ word. bytes_eq word.now name.now) words.now }
{
    words.iter().any(|word| same_bytes(word.as_bytes(), name))
}

/// Whether the language gives this name a meaning.
pub fn is_builtin(name: &[u8]) -> bool
    ensures { result ≡ is_among builtins name.now }
{
    is_listed(&BUILTINS, name)
}
