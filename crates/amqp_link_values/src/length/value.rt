//! How many bytes a value takes in its shortest code (1.6).
ghost use Rattle.std.specs.Prelude.{◌≡◌, ◌+◌, ◌≤◌, length, nat_le, sum_by};
ghost use Rattle.std.specs.List.{list_all};
ghost use Rattle.amqp_link_values.specs.Data.{list, map};
ghost use Rattle.amqp_link_values.specs.View.{view, items_view, pairs_view};
ghost use Rattle.amqp_link_values.specs.Length.{IsU64Of};
ghost use Rattle.amqp_link_values.specs.Length;

use crate::length::EncodedLen;
use crate::symbol::Symbol;
use crate::value::{Descriptor, Value};

/// The length of an unsigned number whose widest code takes `wide` bytes.
pub fn unsigned_len(wide: u64, number: u64) -> u64
    ensures { result ≡ Length.unsigned_len wide number }
{
    if number == 0 {
        1
    } else if number <= 255 {
        2
    } else {
        wide
    }
}

// The length of a signed number whose widest code takes `wide` bytes.
fn signed_len(wide: u64, number: i64) -> u64
    ensures { result ≡ Length.signed_len wide number }
{
    if -128 <= number && number <= 127 {
        2
    } else {
        wide
    }
}

/// The length of a binary, a text or a symbol of `len` bytes.
pub fn text_len(len: usize) -> Option<u64>
    ensures { IsU64Of (Length.text_len len) result }
{
    let len = len as u64;
    if len <= 255 {
        Some(2 + len)
    } else {
        len.checked_add(5)
    }
}

/// The length of a list that is not empty, or of a map, whose parts take `content` bytes.
pub fn compound_len(content: u64) -> Option<u64>
    ensures { IsU64Of (Length.compound_len content) result }
{
    if content <= 254 {
        Some(3 + content)
    } else {
        content.checked_add(9)
    }
}

// Whether a size of one byte is enough for each name.
fn are_short(names: &[Symbol]) -> bool
    ensures { result ≡ list_all (λ s. nat_le (length s) 255) names.now }
{
    names.iter().all(|name| name.as_str().len() <= 255)
}

// The length of the names, each with a size of `each` bytes in front.
fn total_len(names: &[Symbol], each: u64) -> Option<u64>
    requires { each ≤ 4 }
    ensures { IsU64Of (sum_by (λ s. each + length s) names.now) result }
{
    let mut total = 0u64;
    for name in names {
        let text = name.as_str();
        total = total.checked_add(each)?.checked_add(text.len() as u64)?;
    }
    Some(total)
}

// The elements of an array have one code: a single long name makes all sizes long.
fn elements_len(names: &[Symbol]) -> Option<u64>
    ensures { IsU64Of (Length.elements_len names.now) result }
{
    if are_short(names) {
        total_len(names, 1)
    } else {
        total_len(names, 4)
    }
}

// The length of an array of `count` elements that take `content` bytes.
fn counted_len(count: usize, content: u64) -> Option<u64>
    ensures { IsU64Of (Length.counted_len count content) result }
{
    if content <= 253 && count <= 255 {
        Some(4 + content)
    } else {
        content.checked_add(10)
    }
}

/// The length of an array of symbols.
pub fn array_len(names: &[Symbol]) -> Option<u64>
    ensures { IsU64Of (Length.array_len names.now) result }
{
    counted_len(names.len(), elements_len(names)?)
}

// The length of the descriptor of a described value.
fn descriptor_len(descriptor: &Descriptor) -> Option<u64>
    ensures { IsU64Of (Length.descriptor_len descriptor.now) result }
{
    match descriptor {
        Descriptor::Code(code) => Some(unsigned_len(9, *code)),
        Descriptor::Name(name) => text_len(name.as_str().len()),
    }
}

impl EncodedLen for Value {
    ghost len_of = { λ value. Length.encoded_len (view value) };

    fn encoded_len(&self) -> Option<u64> {
        value_len(self)
    }
}

// Values hold values, so three functions call one another.
#[cycle(encoded_len)]
fn value_len(value: &Value) -> Option<u64>
    ensures { IsU64Of (Length.encoded_len (view value.now)) result }
{
    match value {
        Value::Null => Some(1),
        Value::Bool(_) => Some(1),
        Value::Ubyte(_) => Some(2),
        Value::Ushort(_) => Some(3),
        Value::Uint(n) => Some(unsigned_len(5, u64::from(*n))),
        Value::Ulong(n) => Some(unsigned_len(9, *n)),
        Value::Byte(_) => Some(2),
        Value::Short(_) => Some(3),
        Value::Int(n) => Some(signed_len(5, i64::from(*n))),
        Value::Long(n) => Some(signed_len(9, *n)),
        Value::Timestamp(_) => Some(9),
        Value::Binary(bytes) => text_len(bytes.len()),
        Value::String(text) => text_len(text.len()),
        Value::Symbol(symbol) => text_len(symbol.as_str().len()),
        Value::List(items) => list_len(items),
        Value::Map(pairs) => map_len(pairs),
        Value::SymbolArray(symbols) => array_len(symbols),
        Value::Described(descriptor, value) => {
            let head = descriptor_len(descriptor)?;
            head.checked_add(1)?.checked_add(value_len(value)?)
        }
    }
}

// A list without items has a code of its own.
#[cycle(encoded_len)]
fn list_len(items: &Vec<Value>) -> Option<u64>
    ensures { IsU64Of (Length.encoded_len (list (items_view items.now.items))) result }
{
    let mut content = 0u64;
    for item in items {
        content = content.checked_add(value_len(item)?)?;
    }
    if items.is_empty() {
        Some(1)
    } else {
        compound_len(content)
    }
}

// Unlike an empty list, an empty map has a size and a count.
#[cycle(encoded_len)]
fn map_len(pairs: &Vec<(Value, Value)>) -> Option<u64>
    ensures { IsU64Of (Length.encoded_len (map (pairs_view pairs.now.items))) result }
{
    let mut content = 0u64;
    for (key, value) in pairs {
        let key = value_len(key)?;
        content = content.checked_add(key)?.checked_add(value_len(value)?)?;
    }
    compound_len(content)
}
