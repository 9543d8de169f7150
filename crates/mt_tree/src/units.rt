ghost use Rattle.std.specs.Prelude.{◌≡◌, ◌^◌, ◌<◌};
ghost use Rattle.std.specs.Str.{chars};
ghost use Rattle.mt_tree.specs.Text.{units_of};

/// The length in units of UTF-16: one for each character up to U+FFFF, and two for each above it.
pub(crate) fn units(text: &str) -> usize
    ensures value { result ≡ units_of (chars text.now) }
    ensures small { result < 2 ^ 63 }
{
    // No character takes more units than bytes, so the sum fits.
    let _bytes = text.len();
    let mut units = 0;
    for c in text.chars() {
        let taken = c.len_utf16();
        units += taken;
    }
    units
}
