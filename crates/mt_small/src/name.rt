ghost use Rattle.std.specs.Prelude.{◌≡◌};
ghost use Rattle.std.specs.List.{list_all};
ghost use Rattle.std.specs.Str.{bytes_eq};
ghost use Rattle.mt_small.specs.Name.{is_lower, is_name, is_target, is_service_name};

use crate::words::is_builtin;
use mt_tree::word_reserved;

/// Whether it is a lower-case ASCII letter.
pub fn lower(byte: u8) -> bool
    ensures { result ≡ is_lower byte }
{
    byte >= b'a' && byte <= b'z'
}

/// Whether these are lower-case ASCII letters.
fn all_lower(bytes: &[u8]) -> bool
    ensures { result ≡ list_all is_lower bytes.now }
{
    bytes.iter().all(|byte| lower(*byte))
}

/// Whether these are 1 to 32 lower-case ASCII letters.
pub fn name_fits(bytes: &[u8]) -> bool
    ensures { result ≡ is_name bytes.now }
{
    bytes.len() >= 1 && (bytes.len() <= 32 && all_lower(bytes))
}

/// Whether these are a name that is neither a reserved word nor a builtin's.
pub fn service_name_fits(bytes: &[u8]) -> bool
    ensures { result ≡ is_service_name bytes.now }
{
    name_fits(bytes) && (!word_reserved(bytes) && !is_builtin(bytes))
}

/// Whether it is `/hop/` and a name.
pub fn target_fits(target: &[u8]) -> bool
    ensures { result ≡ is_target target.now }
{
    if target.len() < 5 {
        false
    } else {
        same_bytes(&target[..5], b"/hop/") && name_fits(&target[5..])
    }
}

/// Whether both are the same bytes.
pub fn same_bytes(a: &[u8], b: &[u8]) -> bool
    ensures { result ≡ bytes_eq a.now b.now }
{
    a == b
}
