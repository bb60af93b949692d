//! Deliveries that are cut off and resumed, and their fronts.
use crate::assertions::{assert_equal, assert_equal_at};
use crate::attached::EIGHT;
use crate::incomplete_transfer::{
    Answer, BARE, FIRST, Row, Seen, answer_of, append, seen, start, transfer_of,
};
use amqp_link_core::incomplete_transfer::IncompleteTransfer;
use bytes::Bytes;
use std::process::Abort;

// The answer to a resumption, and the delivery after it.
fn resumed(
    rt: &(impl Abort + AllocGlobal),
    held: &mut IncompleteTransfer,
    row: Row,
    payload: &'static [u8],
) -> (Answer, Seen) {
    let answer = held.try_resume(transfer_of(rt, row), Bytes::from_static(payload));
    (answer_of(answer), seen(held))
}

const SEVEN: Row = Row {
    id: Some(7),
    ..FIRST
};

// The id 8 and the tag 01 alone.
const EIGHTH: Row = Row {
    id: Some(8),
    tag: Some(1),
    ..BARE
};

const REFUSED: &[(Row, Answer, &str)] = &[
    (Row { id: None, ..EIGHTH }, Answer::NoId, "no id"),
    (BARE, Answer::NoId, "no id, no tag"),
    (
        Row {
            tag: None,
            ..EIGHTH
        },
        Answer::NoTag,
        "no tag",
    ),
    (
        Row {
            tag: Some(2),
            ..EIGHTH
        },
        Answer::Inconsistent,
        "another tag",
    ),
    (
        Row {
            format: Some(1),
            ..EIGHTH
        },
        Answer::Inconsistent,
        "another format",
    ),
];

fn named(id: u32) -> Row {
    Row {
        id: Some(id),
        ..BARE
    }
}

#[test]
fn resumption_gives_a_new_id(rt: HostRuntime) {
    let mut held = start(&rt, SEVEN, b"\x00\x53\x70\xc0\x00");
    for (row, answer, message) in REFUSED {
        let refused = resumed(&rt, &mut held, *row, b"\x53");
        let unchanged = (*answer, (SEVEN, 1, 5, (0, 5)));
        assert_equal_at(&rt, &refused, &unchanged, message);
    }
    let taken = resumed(&rt, &mut held, EIGHTH, b"\x53\x77\x41");
    let old = append(&rt, &mut held, named(7), b"");
    let new = append(&rt, &mut held, named(8), b"");
    drop(held);
    let merged = Row {
        id: Some(8),
        ..FIRST
    };
    assert_equal(&rt, &taken, &(Answer::Taken, (merged, 2, 8, (1, 4))));
    assert_equal_at(&rt, &old, &Answer::Inconsistent, &"the old id afterwards");
    assert_equal_at(&rt, &new, &Answer::Taken, &"the new id afterwards");
}

// Keeps the front up to a position, and shows the delivery then.
fn kept(rt: &impl Abort, held: &mut IncompleteTransfer, at: (u32, u64)) -> Seen {
    let kept = held.keep_buffer_till_section_number_and_offset(at.0, at.1);
    kept.expect(rt, "memory");
    seen(held)
}

#[test]
fn front_is_kept(rt: HostRuntime) {
    let mut held = start(&rt, FIRST, EIGHT);
    let first_section = kept(&rt, &mut held, (1, 0));
    let no_such_section = kept(&rt, &mut held, (2, 0));
    drop(held);
    let wanted = (FIRST, 1, 4, (0, 4));
    assert_equal(&rt, &first_section, &wanted);
    assert_equal(&rt, &no_such_section, &wanted);
}

// The eight bytes in three pieces, cut after these numbers of them.
fn cut_thrice(rt: &(impl Abort + AllocGlobal), first: usize, second: usize) -> IncompleteTransfer {
    let second = second.min(8);
    let first = first.min(second);
    let mut held = start(rt, FIRST, &EIGHT[..first]);
    append(rt, &mut held, BARE, &EIGHT[first..second]);
    append(rt, &mut held, BARE, &EIGHT[second..]);
    held
}

// Whether the pieces are these bytes, joined.
fn is_joined(rt: &(impl Abort + AllocGlobal), held: &IncompleteTransfer, want: &[u8]) -> bool {
    let mut bytes = Vec::new(rt.alloc());
    for piece in held.pieces() {
        bytes
            .extend_from_slice(piece.as_slice())
            .expect(rt, "memory");
    }
    let is_joined = bytes.as_slice() == want;
    drop(bytes);
    is_joined
}

// Of the eight bytes, cut in three, the front up to a position: whether it is the first bytes, that many,
// and its size and its own position.
fn front(
    rt: &(impl Abort + AllocGlobal),
    cuts: (usize, usize),
    at: (u32, u64),
    length: usize,
) -> (bool, u64, (u32, u64)) {
    let mut held = cut_thrice(rt, cuts.0, cuts.1);
    let shown = kept(rt, &mut held, at);
    let is_front = is_joined(rt, &held, &EIGHT[..length.min(8)]);
    drop(held);
    (is_front, shown.2, shown.3)
}

// The first two cuts, if there are any, with which the front up to a position is not as long, or ends at
// another one.
fn first_lost(
    rt: &(impl Abort + AllocGlobal),
    at: (u32, u64),
    length: usize,
    position: (u32, u64),
) -> Option<(usize, usize)> {
    for cut in 0..81usize {
        let cuts = (cut / 9, cut % 9);
        if front(rt, cuts, at, length) != (true, length as u64, position) {
            return Some(cuts);
        }
    }
    None
}

// A position, how many of the eight bytes are kept up to it, and the position of those.
const FRONTS: &[((u32, u64), usize, (u32, u64))] = &[
    ((0, 0), 0, (0, 0)),
    ((0, 1), 1, (0, 1)),
    ((0, 2), 2, (0, 2)),
    ((0, 3), 3, (0, 3)),
    ((0, 4), 4, (0, 4)),
    ((1, 0), 4, (0, 4)),
    ((0, 5), 5, (0, 5)),
    ((0, 6), 6, (0, 6)),
    ((1, 1), 5, (0, 5)),
    ((1, 3), 7, (1, 3)),
    ((1, 4), 8, (1, 4)),
    ((0, 7), 8, (1, 4)),
    ((1, 5), 8, (1, 4)),
];

#[test]
fn front_is_kept_of_any_pieces(rt: HostRuntime) {
    for (at, length, position) in FRONTS {
        assert_equal_at(&rt, &first_lost(&rt, *at, *length, *position), &None, at);
    }
}
