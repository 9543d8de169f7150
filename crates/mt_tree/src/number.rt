ghost use Rattle.std.specs.Prelude.{◌≡◌, ◌≤◌, length};
ghost use Rattle.std.specs.Fmt.{decimal, signed_decimal};
ghost use Rattle.mt_tree.specs.Text.{units_of};

/// The number of decimal digits.
fn digits(n: u64) -> u64
    ensures count { result ≡ length (decimal n) }
    ensures small { result ≤ 20 }
{
    let mut left = n;
    let mut count = 1;
    while left >= 10 {
        left /= 10;
        count += 1;
    }
    count
}

/// The units of a number in decimal form, with its sign where it is below zero. There are at most 21. Takes no memory.
pub fn decimal_units(n: i64) -> u64
    ensures units { result ≡ units_of (signed_decimal n) }
    ensures small { result ≤ 21 }
{
    let digits = digits(n.unsigned_abs());
    if n < 0 { digits + 1 } else { digits }
}
