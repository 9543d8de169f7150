ghost use Rattle.std.specs.Prelude.{◌≡◌, ◌<◌};
ghost use Rattle.mt_syntax.specs.Data.{is_digit as is_decimal};
ghost use Rattle.mt_json.specs.Reading.{hex_value};

/// Whether the byte is a decimal digit.
pub fn is_digit(b: u8) -> bool
    ensures { result ≡ is_decimal b }
{
    b'0' <= b && b < b':'
}

/// The value of a hexadecimal digit, in lower case; of another byte some number below 16.
pub fn hexadecimal(b: u8) -> u8
    ensures value { result ≡ hex_value b }
    ensures bound { result < 16 }
{
    if b < 58 {
        b.saturating_sub(48) % 16
    } else {
        b.saturating_sub(87) % 16
    }
}
