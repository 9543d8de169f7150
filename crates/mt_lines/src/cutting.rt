ghost use Rattle.std.specs.Prelude.{◌≡◌, ◌≤◌, ◌==◌, not, length, option_copied, position};
ghost use Rattle.mt_lines.specs.Words.{place_of, before_back, leading_spaces, after_spaces};

/// The place of the first byte like this.
fn first_place(byte: u8, bytes: &[u8]) -> Option<usize>
    ensures { result ≡ position (λ b. b == byte) bytes.now }
{
    bytes.iter().position(|b| *b == byte)
}

/// How many bytes stand before the first one like this, or how many there are where there is none.
#[tactic(auto, using(crate::proofs::Words::place))]
pub fn place_of(byte: u8, bytes: &[u8]) -> usize
    ensures exact { result ≡ place_of byte bytes.now }
    ensures within { result ≤ length bytes.now }
{
    first_place(byte, bytes).unwrap_or(bytes.len())
}

/// What this back follows, where the bytes end with it.
pub fn before_back<'a>(back: &[u8], bytes: &'a [u8]) -> Option<&'a [u8]>
    ensures { option_copied result ≡ before_back back.now bytes.now }
{
    bytes.strip_suffix(back)
}

/// The place of the first byte that is no space.
fn first_non_space(bytes: &[u8]) -> Option<usize>
    ensures { result ≡ position (λ b. not (b == 32)) bytes.now }
{
    bytes.iter().position(|b| *b != b' ')
}

/// How many spaces the bytes begin with.
#[tactic(auto, using(crate::proofs::Words::place))]
fn leading_spaces(bytes: &[u8]) -> usize
    ensures exact { result ≡ leading_spaces bytes.now }
    ensures within { result ≤ length bytes.now }
{
    first_non_space(bytes).unwrap_or(bytes.len())
}

/// What follows one or more spaces, where the bytes begin with one.
pub fn after_spaces(bytes: &[u8]) -> Option<&[u8]>
    ensures { option_copied result ≡ after_spaces bytes.now }
{
    let spaces = leading_spaces(bytes);
    if 0 < spaces {
        Some(&bytes[spaces..])
    } else {
        None
    }
}
