//! The tags of deliveries.
use amqp_link_types::types::DeliveryTag;
use std::alloc::{AllocError, Global};

// Tags of all lengths that matter: none, few bytes, those that a sender gives by itself, as many as a tag may have, and more.
const TAGS: [&[u8]; 13] = [
    b"",
    b"a",
    b"b",
    b"zz",
    &[0, 0, 0, 0],
    &[0, 0, 0, 1],
    &[0, 0, 0, 2],
    &[255, 255, 255, 255],
    b"sixteen bytes !!",
    b"seventeen bytes !",
    b"thirty-one bytes, one too few !",
    b"thirty-two bytes, as many as may",
    b"a tag of more than thirty-two bytes, which none may have",
];

/// All tags that deliveries have, but for those that a sender gives by itself.
pub fn all_tags(alloc: Global) -> Result<Vec<DeliveryTag>, AllocError> {
    let mut tags = Vec::with_capacity(alloc, TAGS.len())?;
    for bytes in TAGS {
        tags.push(DeliveryTag::copied(alloc, bytes)?)?;
    }
    Ok(tags)
}
