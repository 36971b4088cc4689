//! Numbers out of digits.
ghost use Rattle.std.specs.Prelude.{◌≡◌, ◌≤◌, ◌^◌, ◌<◌, ◌+◌, ◌*◌};
ghost use Rattle.std.specs.Option.{SomeIff};
ghost use Rattle.std.specs.Str.Parse.{AllDigits, digits_value};

/// The number that digits of this radix write, leading zeros taken, letters of either case; 0 for
/// no digits. `None` for a byte that is no digit, and from 2^64 up.
pub fn number(digits: &[u8], radix: u32) -> Option<u64>
    requires some { 2 ≤ radix }
    requires known { radix ≤ 36 }
    ensures { SomeIff result (AllDigits radix digits.now × (digits_value radix digits.now < 2 ^ 64))
        (digits_value radix digits.now) }
{
    let mut value = 0u64;
    for &digit in digits {
        let digit = char::from(digit).to_digit(radix)?;
        value = followed(value, radix, digit)?;
    }
    Some(value)
}

/// The number with one digit more.
fn followed(value: u64, radix: u32, digit: u32) -> Option<u64>
    ensures { SomeIff result (value * radix + digit < 2 ^ 64) (value * radix + digit) }
{
    let shifted = value.checked_mul(u64::from(radix))?;
    shifted.checked_add(u64::from(digit))
}
