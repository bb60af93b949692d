// Positions that are kept as payloads arrive, worked out by hand.
use crate::assertions::{assert_equal_at, assert_holds_at};
use amqp_link_core::position_carry::PositionCarry;
use bytes::Bytes;
use std::process::Abort;

fn piece(rt: &(impl Abort + AllocGlobal), bytes: &[u8]) -> Bytes {
    Bytes::copy_from_slice(rt.alloc(), bytes).expect(rt, "memory")
}

fn push(rt: &impl Abort, carry: &mut PositionCarry, payload: Bytes) {
    let is_pushed = carry.push(&payload).is_ok();
    drop(payload);
    assert_holds_at(rt, is_pushed, &"a payload");
}

// The positions after each byte, pushed one by one with an empty payload between any two; 0 and 0 past the
// last.
fn after_each_byte(rt: &(impl Abort + AllocGlobal), bytes: &[u8]) -> [(u32, u64); 8] {
    let mut carry = PositionCarry::new();
    let mut positions = [(0, 0); 8];
    for (index, byte) in bytes.iter().enumerate() {
        push(rt, &mut carry, piece(rt, &[*byte]));
        push(rt, &mut carry, Bytes::new());
        if let Some(position) = positions.get_mut(index) {
            *position = carry.position();
        }
    }
    positions
}

const NONE: (u32, u64) = (0, 0);

const STEPS: &[(&[u8], [(u32, u64); 8], &str)] = &[
    (
        b"\x00\x53\x70\xc0\x00\x53\x77\x41",
        [
            (0, 1),
            (0, 2),
            (0, 3),
            (0, 4),
            (0, 5),
            (0, 6),
            (1, 3),
            (1, 4),
        ],
        "the first header begins the payload",
    ),
    (
        b"\x00\x00\x53\x70",
        [(0, 1), (0, 2), (0, 3), (1, 3), NONE, NONE, NONE, NONE],
        "a header after a zero byte",
    ),
    (
        b"\x00\x53\x00\x53\x75",
        [(0, 1), (0, 2), (0, 3), (0, 4), (1, 3), NONE, NONE, NONE],
        "a header that begins anew",
    ),
];

#[test]
fn each_byte_moves_the_position(rt: HostRuntime) {
    for (bytes, positions, message) in STEPS {
        assert_equal_at(&rt, &after_each_byte(&rt, bytes), positions, message);
    }
}

// 200 bytes of text, with a header from this place on.
fn text_with_header(
    rt: &(impl Abort + AllocGlobal),
    header: &'static [u8],
    place: usize,
) -> Vec<u8> {
    let mut bytes = vec![in rt.alloc(); 0x41; 200].expect(rt, "memory");
    for (index, byte) in header.iter().enumerate() {
        if let Some(at) = bytes.get_mut(place.wrapping_add(index)) {
            *at = *byte;
        }
    }
    bytes
}

// The position after the bytes up to a place and the rest are pushed, and their number.
fn pushed_in_two(rt: &(impl Abort + AllocGlobal), bytes: &[u8], cut: usize) -> ((u32, u64), u64) {
    let (front, rest) = bytes.split_at(cut.min(bytes.len()));
    let mut carry = PositionCarry::new();
    push(rt, &mut carry, piece(rt, front));
    push(rt, &mut carry, piece(rt, rest));
    (carry.position(), carry.len())
}

// The first place of a cut, if there is any, after which a header from this place on is not found.
fn first_missed(
    rt: &(impl Abort + AllocGlobal),
    header: &'static [u8],
    place: usize,
) -> Option<usize> {
    let bytes = text_with_header(rt, header, place);
    let offset = 200u64.saturating_sub(place as u64);
    let mut missed = None;
    for cut in 0..100 {
        if pushed_in_two(rt, bytes.as_slice(), cut) != ((1, offset), 200) {
            missed = missed.or(Some(cut));
        }
    }
    drop(bytes);
    missed
}

const HEADERS: [&'static [u8]; 2] = [b"\x00\x53\x75", b"\x00\x80\x00\x00\x00\x00\x00\x00\x00\x75"];

// The first bytes of a piece are read behind those before it, and then blocks at once: a header of either form is found
// at each place near the borders of these, wherever the payload is cut.
#[test]
fn headers_at_the_borders_of_blocks_are_found(rt: HostRuntime) {
    for header in HEADERS {
        for place in 1..80usize {
            assert_equal_at(&rt, &first_missed(&rt, header, place), &None, &place);
        }
    }
}
