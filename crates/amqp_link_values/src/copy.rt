//! Copies of parts that may be absent, or empty.
ghost use Rattle.std.specs.Prelude.{◌≡◌, ◌<◌, ◌⊎◌, length, string_bytes, IfOk, OnErr, IsSomeAnd};

use std::alloc::AllocError;

/// A copy of a value that may be absent, for a type whose copies are equal to their originals. Does not
/// allocate if the value is absent, or if its own copy does not.
pub fn copy_of<T: Clone>(value: &Option<T>) -> Result<Option<T>, AllocError>
    requires { (t c : T) → T.is_clone t c → c ≡ t }
    ensures copy { IfOk result (λ copy. copy ≡ value.now) }
    ensures memory { OnErr result (IsSomeAnd value.now (λ value. ¬ (T.is_infallible value))) }
{
    match value {
        Some(value) => Ok(Some(value.clone()?)),
        None => Ok(None),
    }
}

/// Copies of two such values. Does not allocate if neither copy does.
pub fn copies_of<T: Clone + Drop, U: Clone>(
    first: &Option<T>,
    second: &Option<U>,
) -> Result<(Option<T>, Option<U>), AllocError>
    requires first { (t c : T) → T.is_clone t c → c ≡ t }
    requires second { (u c : U) → U.is_clone u c → c ≡ u }
    ensures first { IfOk result (λ copies. copies.0 ≡ first.now) }
    ensures second { IfOk result (λ copies. copies.1 ≡ second.now) }
    ensures memory { OnErr result (IsSomeAnd first.now (λ value. ¬ (T.is_infallible value))
        ⊎ IsSomeAnd second.now (λ value. ¬ (U.is_infallible value))) }
{
    Ok((copy_of(first)?, copy_of(second)?))
}

// A copy of a string. The contract of its own `clone` leaves open whether that of an empty one allocates, so that
// this case is handled first.
pub(crate) fn copy_of_string(text: &String) -> Result<String, AllocError>
    ensures copy { IfOk result (λ copy. string_bytes copy ≡ string_bytes text.now) }
    ensures memory { OnErr result (0 < length (string_bytes text.now)) }
{
    if text.is_empty() {
        return Ok(String::new(*text.allocator()));
    }
    text.clone()
}

// A copy of a list, in the same way.
pub(crate) fn copy_of_list<T: Clone>(list: &Vec<T>) -> Result<Vec<T>, AllocError>
    requires { (t c : T) → T.is_clone t c → c ≡ t }
    ensures copy { IfOk result (λ copy. copy.items ≡ list.now.items) }
    ensures memory { OnErr result (0 < length list.now.items) }
{
    if list.is_empty() {
        return Ok(Vec::new(*list.allocator()));
    }
    list.clone()
}
