//! Numbers of a line, in decimal digits.
ghost use Rattle.std.specs.Prelude.{◌<◌, ◌^◌};
ghost use Rattle.std.specs.Option.{SomeIff};
ghost use Rattle.std.specs.Str.Parse.{IsNumeral, digits_value, signed_digits_value};
ghost use Rattle.line_text.specs.Number.{IsSignedNumeral};

use crate::digits::are_digits;

/// The number that `text` states in decimal digits, one or more and nothing else, if a `u64` holds it.
/// Leading zeros are allowed. Does not allocate.
pub fn parse_unsigned(text: &[u8]) -> Option<u64>
    ensures { SomeIff result
        (IsNumeral 10 text.now × (digits_value 10 text.now < 2 ^ 64))
        (digits_value 10 text.now) }
{
    // `parse` accepts a plus too, which is no digit.
    if !are_digits(text, 10) {
        return None;
    }
    let Ok(digits) = str::from_utf8(text) else {
        return None;
    };
    digits.parse().ok()
}

/// The same of an `i64`, with an optional minus before the digits.
pub fn parse_signed(text: &[u8]) -> Option<i64>
    ensures { SomeIff result (IsSignedNumeral text.now) (signed_digits_value 10 text.now) }
{
    let digits = text.strip_prefix(b"-").unwrap_or(text);
    if !are_digits(digits, 10) {
        return None;
    }
    let Ok(signed) = str::from_utf8(text) else {
        return None;
    };
    signed.parse().ok()
}
