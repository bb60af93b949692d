//! Numbers of a script.
ghost use Rattle.std.specs.Prelude.{◌<◌, ◌^◌};
ghost use Rattle.std.specs.Option.{SomeIff};
ghost use Rattle.std.specs.Str.Parse.{IsNumeral, digits_value};

use line_text::number::parse_unsigned;

/// The number that `text` states in decimal digits, one or more and nothing else, if a `u32` holds it.
/// Leading zeros are allowed. Does not allocate.
pub fn parse_number(text: &[u8]) -> Option<u32>
    ensures { SomeIff result
        (IsNumeral 10 text.now × (digits_value 10 text.now < 2 ^ 32))
        (digits_value 10 text.now) }
{
    u32::try_from(parse_unsigned(text)?).ok()
}
