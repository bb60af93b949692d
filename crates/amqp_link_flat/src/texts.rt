//! Texts of bytes from C, and bytes to C.
ghost use Rattle.std.specs.Prelude.{◌≡◌, ◌≢◌, ◌↔◌, ◌≤◌, ◌<◌, ◌++◌};
ghost use Rattle.std.specs.Prelude.{length, drop, string_bytes, IfOk, IfErr, OnOk, IsTrue, IsUtf8};
ghost use Rattle.amqp_link_flat.specs.Flat.{given};
ghost use Rattle.amqp_link_flat.specs.Refusing.{IsText, IsTextRefusal};

use crate::status::{BUFFER_TOO_SMALL, NO_TEXT, OK, OUT_OF_MEMORY};
use amqp_link_types::types::{Symbol, Text};
use std::alloc::Global;
use std::str::from_utf8;

// A string of bytes in UTF-8, which is tested first.
fn string(alloc: Global, bytes: &[u8]) -> Result<String, u32>
    ensures words { IfOk result (λ words. string_bytes words ≡ bytes.now) }
    ensures utf8 { OnOk result (IsUtf8 bytes.now) }
    ensures no_text { (result ≡ Err 4) ↔ ¬ (IsUtf8 bytes.now) }
    ensures memory { result ≡ Err 3 → IsUtf8 bytes.now }
    ensures refused { IfErr result IsTextRefusal }
{
    let Ok(words) = from_utf8(bytes) else {
        return Err(NO_TEXT);
    };
    match String::from_str(alloc, words) {
        Ok(words) => Ok(words),
        Err(_) => Err(OUT_OF_MEMORY),
    }
}

/// A text of bytes in UTF-8. Refused with `NO_TEXT` if they are not, and with `OUT_OF_MEMORY`.
pub fn text(alloc: Global, bytes: &[u8]) -> Result<Text, u32>
    ensures text { IfOk result (λ words. words ≡ bytes.now) }
    ensures utf8 { OnOk result (IsUtf8 bytes.now) }
    ensures no_text { (result ≡ Err 4) ↔ ¬ (IsUtf8 bytes.now) }
    ensures memory { result ≡ Err 3 → IsUtf8 bytes.now }
    ensures refused { IfErr result IsTextRefusal }
{
    Ok(Text::from(string(alloc, bytes)?))
}

/// A symbol of bytes in UTF-8, refused as a text.
pub fn symbol(alloc: Global, bytes: &[u8]) -> Result<Symbol, u32>
    ensures symbol { IfOk result (λ words. words ≡ bytes.now) }
    ensures utf8 { OnOk result (IsUtf8 bytes.now) }
    ensures no_text { (result ≡ Err 4) ↔ ¬ (IsUtf8 bytes.now) }
    ensures memory { result ≡ Err 3 → IsUtf8 bytes.now }
    ensures refused { IfErr result IsTextRefusal }
{
    Ok(Symbol::from(string(alloc, bytes)?))
}

/// A text, if there is one.
pub fn text_if(alloc: Global, is_there: bool, bytes: &[u8]) -> Result<Option<Text>, u32>
    ensures text { IfOk result (λ words. words ≡ given is_there bytes.now) }
    ensures utf8 { OnOk result (IsText is_there bytes.now) }
    ensures no_text { (result ≡ Err 4) ↔ ¬ (IsText is_there bytes.now) }
    ensures memory { result ≡ Err 3 → IsTrue is_there × IsUtf8 bytes.now }
    ensures refused { IfErr result IsTextRefusal }
{
    if !is_there {
        return Ok(None);
    }
    Ok(Some(text(alloc, bytes)?))
}

/// Copies bytes into a buffer, and says how many there are. If the buffer has no room for all, it stays as it
/// is, and the status is `BUFFER_TOO_SMALL`.
pub fn copy_out(from: &[u8], to: &mut [u8], size: &mut usize) -> u32
    ensures size { size.new ≡ length from.now }
    ensures copied { result ≡ 0 → to.new ≡ from.now ++ drop (length from.now) to.old }
    ensures small { length to.old < length from.now → (result ≡ 6) }
    ensures fits { length from.now ≤ length to.old → (result ≡ 0) }
    ensures left { result ≢ 0 → to.new ≡ to.old }
{
    *size = from.len();
    if to.len() < from.len() {
        return BUFFER_TOO_SMALL;
    }
    to[..from.len()].copy_from_slice(from);
    OK
}
