ghost use Rattle.std.specs.Prelude.{◌≡◌, drop, take};
ghost use Rattle.std.specs.Str.{bytes_eq};
ghost use Rattle.mt_page_tokens.specs.Reading.{past, upto};

/// Whether the bytes are the same.
pub fn is_same(a: &[u8], b: &[u8]) -> bool
    ensures { result ≡ bytes_eq a.now b.now }
{
    a == b
}

/// The bytes behind the first so many.
pub(crate) fn skip(bytes: &[u8], count: usize) -> &[u8]
    ensures { result.now ≡ drop count bytes.now }
{
    if count <= bytes.len() {
        &bytes[count..]
    } else {
        &[]
    }
}

/// The first so many bytes.
pub(crate) fn first(bytes: &[u8], count: usize) -> &[u8]
    ensures { result.now ≡ take count bytes.now }
{
    if count <= bytes.len() {
        &bytes[..count]
    } else {
        bytes
    }
}

/// The bytes before the first stop, and those behind it.
pub(crate) fn cut(stop: u8, bytes: &[u8]) -> (&[u8], &[u8])
    ensures before { result.0.now ≡ upto stop bytes.now }
    ensures behind { result.1.now ≡ past stop bytes.now }
{
    for (i, b) in bytes.iter().enumerate() {
        if *b == stop {
            return (first(bytes, i), skip(bytes, i + 1));
        }
    }
    (bytes, &[])
}
