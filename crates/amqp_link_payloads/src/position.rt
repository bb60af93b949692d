//! Positions in the bytes of a delivery (3.4.1).
//!
//! A position is the number of the last section start and the distance from it. A start is the first byte,
//! and each later byte at which a whole section header stands, also if the same bytes stand inside a
//! section's data. How the bytes are cut into pieces makes no difference. Each front of a payload has a
//! position of its own, and the place of that position is the end of the front.
ghost use Rattle.std.specs.Prelude.{◌≡◌, ◌^◌, ◌<◌, ◌≤◌, None, length, IfSome, SomeIff};
ghost use Rattle.std.specs.List.{concat};
ghost use Rattle.amqp_link_payloads.specs.Position.{position, place};

mod counts;
mod header;
mod places;
mod scan;
pub mod sections;

use crate::payload::{Payload, joined_len};
use crate::position::counts::Counts;
use crate::position::places::Seek;
use crate::position::scan::Tail;

/// The position of the end of the joined pieces: the section's number, counted from 0, and the bytes since
/// its start. None if one of the two is too large for its type. Does not allocate.
pub fn position_of(pieces: &[Payload]) -> Option<(u32, u64)>
    ensures { let at = position (concat pieces.now)
        in SomeIff result ((at.0 < 2 ^ 32) × (at.1 < 2 ^ 64)) at }
{
    let mut tail = Tail::new();
    let mut counts = Counts::new(Some(0), Some(0));
    for piece in pieces {
        (tail, counts) = tail.read(counts, piece.as_slice());
    }
    Some((counts.number?, counts.offset?))
}

/// The place in the payload of this offset in the section of this number: how many bytes are before it. None
/// if there is no such section, if the place is past the payload's end, or if it is at or past the end of the
/// next section's header. Reads all bytes, and does not allocate.
pub fn place_of(payload: &Payload, section_number: u32, section_offset: u64) -> Option<usize>
    ensures place { result ≡ place payload.now section_number section_offset }
    ensures within { IfSome result (λ place. place ≤ length payload.now) }
{
    let seek = Seek::new(section_number);
    let (_, seek) = Tail::new().read(seek, payload.as_slice());
    Some(seek.place(section_offset)? as usize)
}

/// The place in the joined pieces of this offset in the section of this number, as [`place_of`] returns it
/// for one payload. None also if a u64 does not hold the length of the joined pieces. Reads all bytes, and
/// does not allocate.
pub fn place_in(pieces: &[Payload], section_number: u32, section_offset: u64) -> Option<u64>
    ensures place { length (concat pieces.now) < 2 ^ 64
        → result ≡ place (concat pieces.now) section_number section_offset }
    ensures too_long { 2 ^ 64 ≤ length (concat pieces.now) → result ≡ None }
    ensures within { IfSome result (λ place. place ≤ length (concat pieces.now)) }
{
    joined_len(pieces)?;
    let mut tail = Tail::new();
    let mut seek = Seek::new(section_number);
    for piece in pieces {
        (tail, seek) = tail.read(seek, piece.as_slice());
    }
    seek.place(section_offset)
}
