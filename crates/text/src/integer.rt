//! The value of an integer as it is written.

ghost use Rattle.std.specs.Prelude.{◌≡◌, ◌^◌, ◌-◌, min};
ghost use Rattle.text.specs.Integers.{magnitude_from, read_integer};

// The digits' value, or the greatest of 32 bits if it is more.
fn magnitude(digits: &[u8]) -> u32
    ensures { result ≡ min (magnitude_from 0 digits.now) (2 ^ 32 - 1) }
{
    digits.iter().fold(0, |value: u32, digit| {
        value
            .saturating_mul(10)
            .saturating_add(u32::from(digit.saturating_sub(b'0')))
    })
}

/// The integer that these bytes write, with a sign or without, if it has at most 32 bits.
pub fn integer_value(bytes: &[u8]) -> Option<i32>
    ensures { result ≡ read_integer bytes.now }
{
    match bytes {
        [b'-', digits @ ..] => 0_i32.checked_sub_unsigned(magnitude(digits)),
        digits => i32::try_from(magnitude(digits)).ok(),
    }
}
