ghost use Rattle.std.specs.Prelude.{◌≡◌, ℕ, List, ◌++◌};
ghost use Rattle.std.specs.Str.{chars};
ghost use Rattle.mt_ops.specs.Order as spec;

/// Whether the units of one character come before those of another.
fn is_below(c: char, d: char) -> bool
    ensures { (us vs : List ℕ) → (c ≡ d → ⊥) → spec.is_below (spec.char_units c ++ us) (spec.char_units d ++ vs) ≡ result }
{
    if (c < '\u{10000}') == (d < '\u{10000}') {
        c < d
    } else if c < '\u{10000}' {
        // A surrogate pair begins with a unit from U+D800 on.
        c < '\u{E000}'
    } else {
        d >= '\u{E000}'
    }
}

/// Whether one text stands before another in the order of the units of UTF-16. Takes no memory.
pub fn comes_before(a: &str, b: &str) -> bool
    ensures { result ≡ spec.comes_before (chars a.now) (chars b.now) }
{
    let mut others = b.chars();
    for c in a.chars() {
        match others.next() {
            None => return false,
            Some(d) => {
                if c != d {
                    return is_below(c, d);
                }
            }
        }
    }
    match others.next() {
        None => false,
        Some(_) => true,
    }
}
