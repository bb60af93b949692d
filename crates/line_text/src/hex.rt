//! Bytes as hexadecimal digits, two a byte, `-` for none.
ghost use Rattle.std.specs.Prelude.{◌≡◌, ◌≤◌, ◌%◌, length, IfOk, OnErr, MatchOption};
ghost use Rattle.std.specs.Str.Parse.{AllDigits};
ghost use Rattle.line_text.specs.Hex.{IsHexText, hex_bytes};

use crate::digits::{are_digits, hex_value};
use std::alloc::{AllocError, Global};

/// The bytes that `text` states in digits of either case, or `None` if it is no such text.
///
/// Allocates only if `text` is pairs of digits.
pub fn parse_bytes(alloc: Global, text: &[u8]) -> Result<Option<Vec<u8>>, AllocError>
    ensures ok { IfOk result (λ found.
        MatchOption found (¬ IsHexText text.now)
        (λ bytes. IsHexText text.now × (bytes.items ≡ hex_bytes text.now))) }
    ensures err { OnErr result (IsHexText text.now) }
    ensures memory { OnErr result (2 ≤ length text.now) }
{
    if text == b"-".as_slice() {
        return Ok(Some(Vec::new(alloc)));
    }
    if text.is_empty() || text.len() % 2 != 0 || !are_digits(text, 16) {
        return Ok(None);
    }
    Ok(Some(pairs(alloc, text)?))
}

// The bytes of pairs of digits.
fn pairs(alloc: Global, text: &[u8]) -> Result<Vec<u8>, AllocError>
    requires even { length text.now % 2 ≡ 0 }
    requires digits { AllDigits 16 text.now }
    ensures { IfOk result (λ bytes. bytes.items ≡ hex_bytes text.now) }
{
    let count = text.len() / 2;
    let mut bytes = Vec::with_capacity(alloc, count)?;
    for at in 0..count {
        let high = hex_value(text[2 * at]);
        let low = hex_value(text[2 * at + 1]);
        bytes.push(high * 16 + low)?;
    }
    Ok(bytes)
}
