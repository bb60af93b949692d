//! Positions of random bytes, beside a search that is written apart: one place after the other, each header byte by
//! byte.
use crate::assertions::assert_holds_at;
use amqp_link_core::position_carry::PositionCarry;
use amqp_link_payloads::position::{place_in, place_of, position_of};
use amqp_link_types::types::Payload;
use bytes::Bytes;
use std::process::Abort;

// The length of the header at a place: 0 if none stands there.
fn header_at(bytes: &[u8], at: usize) -> usize {
    match bytes.get(at..).unwrap_or(&[]) {
        [0x00, 0x53, code, ..] if 0x70 <= *code && *code <= 0x78 => 3,
        [0x00, 0x80, 0, 0, 0, 0, 0, 0, 0, code, ..] if 0x70 <= *code && *code <= 0x78 => 10,
        _ => 0,
    }
}

// The position of the end of the bytes.
fn plain_position(bytes: &[u8]) -> (u32, u64) {
    let mut number = 0u32;
    let mut start = 0usize;
    for at in 1..bytes.len() {
        if header_at(bytes, at) > 0 {
            number = number.saturating_add(1);
            start = at;
        }
    }
    (number, bytes.len().saturating_sub(start) as u64)
}

// The start of a section, if there are so many.
fn plain_start(bytes: &[u8], number: u32) -> Option<usize> {
    let mut seen = 0u32;
    for at in 0..bytes.len().max(1) {
        if at == 0 || header_at(bytes, at) > 0 {
            if seen == number {
                return Some(at);
            }
            seen = seen.saturating_add(1);
        }
    }
    None
}

// The place of a position in the bytes.
fn plain_place(bytes: &[u8], at: (u32, u64)) -> Option<u64> {
    let place = (plain_start(bytes, at.0)? as u64).saturating_add(at.1);
    let is_before = match plain_start(bytes, at.0.saturating_add(1)) {
        Some(next) => place < next.saturating_add(header_at(bytes, next)) as u64,
        None => true,
    };
    if is_before && place <= bytes.len() as u64 {
        Some(place)
    } else {
        None
    }
}

// The next number of a sequence that looks random (xorshift).
fn next(seed: u64) -> u64 {
    let seed = seed ^ (seed << 13);
    let seed = seed ^ (seed >> 7);
    seed ^ (seed << 17)
}

// A number below this one, which is not 0.
fn below(seed: u64, bound: usize) -> usize {
    ((seed >> 20) % (bound as u64).max(1)) as usize
}

const PARTS: &[&'static [u8]] = &[
    b"\x00\x53\x70",
    b"\x00\x53\x78",
    b"\x00\x80\x00\x00\x00\x00\x00\x00\x00\x75",
    b"\x00\x80\x00\x00\x00\x00\x00\x00\x00",
    b"\x00\x80\x00\x00",
    b"\x00\x80\x75",
    b"\x00\x00",
    b"\x00",
    b"\x53",
    b"\x70",
    b"\x79",
    b"\xff",
    b"text of some length, without a header in it",
];

// Bytes of up to twelve such parts.
fn random_bytes(rt: &(impl Abort + AllocGlobal), seed: u64) -> Vec<u8> {
    let mut bytes = Vec::new(rt.alloc());
    let mut seed = next(seed);
    for _ in 0..below(seed, 13) {
        seed = next(seed);
        let part = PARTS.get(below(seed, PARTS.len())).unwrap_or(&PARTS[0]);
        bytes.extend_from_slice(part).expect(rt, "memory");
    }
    bytes
}

// The bytes cut at two places.
fn cut_at_random(rt: &(impl Abort + AllocGlobal), bytes: &[u8], seed: u64) -> Vec<Payload> {
    let end = bytes.len().saturating_add(1);
    let (first, second) = (below(next(seed), end), below(next(next(seed)), end));
    let (front, rest) = bytes
        .split_at_checked(first.min(second))
        .unwrap_or((bytes, &[]));
    let size = first.max(second).saturating_sub(first.min(second));
    let (middle, last) = rest.split_at_checked(size).unwrap_or((rest, &[]));
    let pieces = vec![in rt.alloc(); piece(rt, front), piece(rt, middle), piece(rt, last)];
    pieces.expect(rt, "memory")
}

fn piece(rt: &(impl Abort + AllocGlobal), bytes: &[u8]) -> Payload {
    Bytes::copy_from_slice(rt.alloc(), bytes).expect(rt, "memory")
}

// The position of the pieces, pushed one after the other.
fn pushed_one_by_one(pieces: &[Payload]) -> Option<(u32, u64)> {
    let mut carry = PositionCarry::new();
    for piece in pieces {
        carry.push(piece).ok()?;
    }
    Some(carry.position())
}

// Whether all calls agree with the plain search on bytes of this seed, however they are cut.
fn agrees(rt: &(impl Abort + AllocGlobal), seed: u64) -> bool {
    let bytes = random_bytes(rt, seed);
    let pieces = cut_at_random(rt, bytes.as_slice(), seed);
    let whole = piece(rt, bytes.as_slice());
    let (number, offset) = plain_position(bytes.as_slice());
    let at = (
        u32::try_from(below(next(seed), (number as usize).saturating_add(2))).unwrap_or(0),
        below(seed, 60) as u64,
    );
    let place = plain_place(bytes.as_slice(), at);
    let agrees = position_of(pieces.as_slice()) == Some((number, offset))
        && pushed_one_by_one(pieces.as_slice()) == Some((number, offset))
        && place_in(pieces.as_slice(), at.0, at.1) == place
        && place_of(&whole, at.0, at.1) == place.map(|place| place as usize);
    drop((bytes, pieces, whole));
    agrees
}

// How many lists of bytes are tried.
const LISTS: u64 = 300;

#[test]
fn all_agree_with_a_plain_search(rt: HostRuntime) {
    let mut seed = 0x9E37_79B9_7F4A_7C15u64;
    for _ in 0..LISTS {
        seed = next(seed);
        assert_holds_at(&rt, agrees(&rt, seed), &seed);
    }
}
