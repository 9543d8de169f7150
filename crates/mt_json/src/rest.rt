ghost use Rattle.std.specs.Prelude.{◌≡◌, drop};
ghost use Rattle.mt_json.specs.Reading.{past_comma};

/// The bytes without so many of the first, or none where there are fewer.
pub fn skip(bytes: &[u8], count: usize) -> &[u8]
    ensures { result.now ≡ drop count bytes.now }
{
    if count <= bytes.len() {
        &bytes[count..]
    } else {
        &[]
    }
}

/// The bytes without the comma that they begin with, if they do.
pub fn past_comma(bytes: &[u8]) -> &[u8]
    ensures { result.now ≡ past_comma bytes.now }
{
    match bytes {
        [b',', rest @ ..] => rest,
        _ => bytes,
    }
}
