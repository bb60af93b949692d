//! Digits of a line, decimal and hexadecimal.
ghost use Rattle.std.specs.Prelude.{◌≡◌, ◌<◌, ◌≤◌, ◌↔◌, IsTrue};
ghost use Rattle.std.specs.Char.{digit_value};
ghost use Rattle.std.specs.Str.Parse.{AllDigits};

/// Whether each byte is a digit in the radix, a letter in either case.
pub fn are_digits(text: &[u8], radix: u32) -> bool
    requires low { 2 ≤ radix }
    requires high { radix ≤ 36 }
    ensures { IsTrue result ↔ AllDigits radix text.now }
{
    text.iter().all(|byte| char::from(*byte).is_digit(radix))
}

/// The value of a hexadecimal digit of either case.
pub fn hex_value(digit: u8) -> u8
    requires { digit_value digit < 16 }
    ensures value { result ≡ digit_value digit }
    ensures bound { result < 16 }
{
    match digit {
        b'0'..=b'9' => digit - b'0',
        b'a'..=b'f' => digit - b'a' + 10,
        _ => digit - b'A' + 10,
    }
}
