//! The tag of a delivery (2.8.7).
ghost use Rattle.std.specs.Prelude.{◌≡◌, ◌↔◌, ◌<◌, false, IsTrue, IfOk, IfSome, IfNone, OnErr, length};
ghost use Rattle.std.specs.Cmp.Lexicographic.{nat_list_eq_equiv};
ghost use Rattle.std.specs.Cmp.Rules.{hashing};
ghost use Rattle.std.specs.Cmp.{partial_equiv_from_equiv};
ghost use Rattle.std.specs.Hash as fed;
ghost use Rattle.std.specs.Str.{bytes_eq};
ghost use Rattle.std.proofs.Common.{rules};
ghost use Rattle.amqp_link_values.specs.Copies.{tag_carries_more};
ghost use Rattle.amqp_link_values.specs.TagBytes.{tag_bytes, IsWithin};

use indexmap::Equivalent;
use std::alloc::{AllocError, Global};
use std::fmt;
use std::hash::{Hash, Hasher};
use std::marker::Model;

// The bytes of a tag. Most tags have four: few bytes stand in the tag itself.
#[derive(Drop)]
enum TagBytes {
    Few { bytes: [u8; FEW], len: usize },
    Many { bytes: Vec<u8> },
}

// Up to so many bytes are few.
const FEW: usize = 16;

/// The bytes by which both endpoints name an unsettled delivery (2.8.7).
///
/// A contract sees a tag as its bytes. Two tags are equal exactly if their bytes are, and equal ones have
/// equal hashes. Up to 16 bytes stand in the tag itself: such a tag is copied without memory.
#[derive(Drop)]
pub struct DeliveryTag {
    bytes: TagBytes,
}

impl Model for DeliveryTag {
    ghost use Rattle.std.specs.Prelude.{ℕ, List};
    ghost use Rattle.amqp_link_values.specs.TagBytes.{tag_bytes, IsWithin};

    ghost Value = { List ℕ };

    ghost view = { λ tag. tag_bytes tag.bytes };

    ghost invariant = { λ tag. IsWithin tag.bytes };
}

// The bytes as they stand in a tag itself, if they are few.
fn few(bytes: &[u8]) -> Option<TagBytes>
    ensures few { IfSome result (λ few. (tag_bytes few ≡ bytes.now) × IsWithin few) }
    ensures many { IfNone result (16 < length bytes.now) }
{
    if bytes.len() > FEW {
        return None;
    }
    let mut few = [0; FEW];
    few[..bytes.len()].copy_from_slice(bytes);
    Some(TagBytes::Few {
        bytes: few,
        len: bytes.len(),
    })
}

impl DeliveryTag {
    /// The tag of these bytes. Allocates only if there are more than 16.
    pub fn copied(alloc: Global, bytes: &[u8]) -> Result<DeliveryTag, AllocError>
        ensures tag { IfOk result (λ tag. tag ≡ bytes.now) }
        ensures memory { OnErr result (16 < length bytes.now) }
    {
        let bytes = match few(bytes) {
            Some(few) => few,
            None => TagBytes::Many {
                bytes: bytes.to_vec(alloc)?,
            },
        };
        Ok(DeliveryTag { bytes })
    }

    /// The bytes of the tag.
    pub fn as_bytes(&self) -> &[u8]
        ensures { result.now ≡ self.now }
    {
        match &self.bytes {
            TagBytes::Few { bytes, len } => &bytes[..*len],
            TagBytes::Many { bytes } => bytes.as_slice(),
        }
    }
}

// Keeps the buffer of many bytes.
impl From<Vec<u8>> for DeliveryTag {
    ghost from_gives = { λ bytes tag. tag ≡ bytes.items };

    fn from(bytes: Vec<u8>) -> DeliveryTag {
        let bytes = match few(bytes.as_slice()) {
            Some(few) => few,
            None => TagBytes::Many { bytes },
        };
        DeliveryTag { bytes }
    }
}

impl Clone for DeliveryTag {
    ghost is_clone = { λ tag copy. copy ≡ tag };

    ghost is_infallible = { λ tag. tag_carries_more tag ≡ false };

    fn clone(&self) -> Result<DeliveryTag, AllocError>
        ensures copy { IfOk result (λ copy. copy ≡ self.now) }
        ensures memory { OnErr result (16 < length self.now) }
    {
        match &self.bytes {
            TagBytes::Few { bytes, len } => Ok(DeliveryTag {
                bytes: TagBytes::Few {
                    bytes: *bytes,
                    len: *len,
                },
            }),
            TagBytes::Many { bytes } => Ok(DeliveryTag {
                bytes: TagBytes::Many {
                    bytes: bytes.clone()?,
                },
            }),
        }
    }
}

impl PartialEq for DeliveryTag {
    ghost eq = { bytes_eq };

    ghost laws = { partial_equiv_from_equiv nat_list_eq_equiv };

    fn eq(&self, other: &DeliveryTag) -> bool
        ensures value { result ≡ bytes_eq self.now other.now }
        ensures equal { IsTrue result ↔ (self.now ≡ other.now) }
    {
        self.as_bytes() == other.as_bytes()
    }
}

impl Eq for DeliveryTag {
    ghost laws = { nat_list_eq_equiv };
}

impl Hash for DeliveryTag {
    ghost hash_input = { fed.slice fed.u8 };

    ghost respects_eq = { Prim.search (hashing, rules) };

    fn hash<H: Hasher>(&self, state: &mut H) {
        self.as_bytes().hash(state);
    }
}

// A map keyed by tags is asked by the bytes of one, without making a tag.
impl Equivalent<DeliveryTag> for &[u8] {
    ghost use Rattle.std.specs.Cmp.Lexicographic.{bytes_decides};
    ghost use Rattle.std.proofs.Common.{ap};

    ghost equivalent = { λ bytes tag. bytes_eq bytes.now tag };

    ghost respects_hash = { λ bytes tag same. ap (fed.slice fed.u8) ((bytes_decides bytes.now tag).0 same) };

    ghost respects_eq = { λ bytes tag other. nat_list_eq_equiv.congr bytes.now tag other };

    fn equivalent(&self, key: &DeliveryTag) -> bool {
        *self == key.as_bytes()
    }
}

impl fmt::Debug for DeliveryTag {
    fn fmt<W: fmt::Write>(&self, f: &mut fmt::Formatter<W>) -> fmt::Result {
        f.debug_struct("DeliveryTag")
            .field("bytes", &self.as_bytes())
            .finish()
    }
}
