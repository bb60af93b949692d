//! The bytes of deliveries.
ghost use Rattle.std.specs.Prelude.{◌^◌, ◌<◌, length, SomeIff};
ghost use Rattle.std.specs.List.{concat};

use bytes::Bytes;

/// The bytes of a delivery, or of one of its transfers. Parts and copies of it share its buffer.
pub type Payload = Bytes;

// The length of the joined pieces, if a u64 holds it.
pub(crate) fn joined_len(pieces: &[Payload]) -> Option<u64>
    ensures { SomeIff result (length (concat pieces.now) < 2 ^ 64) (length (concat pieces.now)) }
{
    let mut joined = 0u64;
    for piece in pieces {
        joined = joined.checked_add(piece.len() as u64)?;
    }
    Some(joined)
}
