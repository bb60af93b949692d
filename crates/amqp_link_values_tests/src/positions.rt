//! Positions that were worked out by hand.
use crate::assertions::{assert_equal, assert_equal_at};
use amqp_link_payloads::position::{place_in, place_of, position_of};
use bytes::Bytes;

// The position of a payload in one piece.
fn position_in_one(payload: &'static [u8]) -> Option<(u32, u64)> {
    let pieces = [Bytes::from_static(payload)];
    let position = position_of(&pieces);
    drop(pieces);
    position
}

// The position of two pieces with an empty one between them.
fn position_of_two(front: &'static [u8], rest: &'static [u8]) -> Option<(u32, u64)> {
    let pieces = [
        Bytes::from_static(front),
        Bytes::new(),
        Bytes::from_static(rest),
    ];
    let position = position_of(&pieces);
    drop(pieces);
    position
}

const HEADERS: &[(&'static [u8], (u32, u64), &str)] = &[
    (b"", (0, 0), "no bytes"),
    (
        b"\x00\x53\x70\xc0\x00",
        (0, 5),
        "a header, and one byte of the next",
    ),
    (
        b"\x00\x53\x70\xc0\x00\x53",
        (0, 6),
        "a header, and two bytes of the next",
    ),
    (
        b"\x00\x53\x70\xc0\x00\x53\x77",
        (1, 3),
        "a second header and no byte after it",
    ),
    (
        b"\x00\x53\x70\xc0\x00\x53\x77\x41",
        (1, 4),
        "a second header and a byte after it",
    ),
    (
        b"\x00\x53\x70\x45\x00\x80\x00\x00\x00\x00\x00\x00\x00",
        (0, 13),
        "a header, and nine bytes of a long one",
    ),
    (
        b"\x00\x53\x70\x45\x00\x80\x00\x00\x00\x00\x00\x00\x00\x77\x41",
        (1, 11),
        "a long header and a byte after it",
    ),
    (
        b"\x00\x53\x70\xc0\x00\x80\x77\x41",
        (0, 8),
        "80 with a code of one byte is no header",
    ),
];

#[test]
fn headers_are_counted(rt: HostRuntime) {
    for (bytes, want, message) in HEADERS {
        assert_equal_at(&rt, &position_in_one(bytes), &Some(*want), message);
    }
    let cut = position_of_two(b"\x00\x53\x70\xc0\x00", b"\x53\x77\x41");
    assert_equal(&rt, &cut, &Some((1, 4)));
    let cut = position_of_two(b"\x41\x00\x80\x00\x00\x00", b"\x00\x00\x00\x00\x75\x41");
    assert_equal(&rt, &cut, &Some((1, 11)));
}

// The position of the first bytes of a payload.
fn end_of_front(payload: &'static [u8], length: usize) -> Option<(u32, u64)> {
    position_in_one(&payload[..length.min(payload.len())])
}

// The place of a position in a payload in one piece.
fn placed_in_one(payload: &'static [u8], at: (u32, u64)) -> Option<usize> {
    let payload = Bytes::from_static(payload);
    let place = place_of(&payload, at.0, at.1);
    drop(payload);
    place
}

// The place of a position in a payload that is cut in two.
fn placed_in_two(payload: &'static [u8], cut: usize, at: (u32, u64)) -> Option<u64> {
    let cut = cut.min(payload.len());
    let pieces = [
        Bytes::from_static(&payload[..cut]),
        Bytes::from_static(&payload[cut..]),
    ];
    let place = place_in(&pieces, at.0, at.1);
    drop(pieces);
    place
}

// Whether a position stands after so many bytes of a payload, in one piece and wherever it is cut in two.
fn is_placed(payload: &'static [u8], at: (u32, u64), length: usize) -> bool {
    for cut in 0..payload.len().saturating_add(1) {
        if placed_in_two(payload, cut, at) != Some(length as u64) {
            return false;
        }
    }
    placed_in_one(payload, at) == Some(length)
}

// The length of the first front whose position is not after that of the one before, or is not found.
fn first_misplaced(payload: &'static [u8]) -> Option<usize> {
    let mut before = None;
    for length in 0..payload.len().saturating_add(1) {
        let at = end_of_front(payload, length);
        if at <= before || !is_placed(payload, at.unwrap_or((9, 9)), length) {
            return Some(length);
        }
        before = at;
    }
    None
}

const PAYLOADS: &[&'static [u8]] = &[
    b"",
    b"\x00\x53\x70\xc0\x00\x53\x77\x41",
    b"\x00\x80\x70\xc0\x00\x80\x77\x41",
    b"\x00\x53\x70\x00\x53\x75\x00\x80\x78",
    b"\x00\x53\x00\x53\x75\x00\x00\x80\x70\x00\x53",
    b"\x41\x00\x80\x53\x70\x00\x53\x79\x00\x53\x70",
    b"\x00\x80\x00\x00\x00\x00\x00\x00\x00\x70\x00\x80\x00\x00\x00\x00\x00\x00\x00\x77\x41",
    b"\x00\x00\x80\x00\x00\x00\x00\x00\x00\x00\x00\x53\x78\x00\x80\x00\x00\x00\x00\x00\x00\x70",
];

#[test]
fn each_front_has_a_place_of_its_own(rt: HostRuntime) {
    for payload in PAYLOADS {
        assert_equal_at(&rt, &first_misplaced(payload), &None, payload);
    }
}
