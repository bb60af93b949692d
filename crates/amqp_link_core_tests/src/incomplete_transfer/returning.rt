//! Refused transfers that are handed back.
use crate::assertions::{assert_equal, assert_equal_at};
use crate::incomplete_transfer::{
    Answer, BARE, FIRST, Row, Seen, answer_of, row_of, seen, start, transfer_of,
};
use amqp_link_core::incomplete_transfer::{IncompleteTransfer, RefusedTransfer};
use bytes::Bytes;
use std::process::Abort;

// Why a transfer was refused, with the fields and the number of bytes that are handed back.
type Back = (Answer, Row, usize);

fn back(refused: RefusedTransfer) -> Back {
    let (row, size) = (row_of(&refused.transfer), refused.payload.len());
    (answer_of::<()>(Err(refused.into_error())), row, size)
}

fn started(
    rt: &(impl Abort + AllocGlobal),
    row: Row,
    payload: &'static [u8],
) -> Result<IncompleteTransfer, RefusedTransfer> {
    let (transfer, payload) = (transfer_of(rt, row), Bytes::from_static(payload));
    IncompleteTransfer::start_or_return(rt.alloc(), transfer, payload)
}

// What is handed back of a further transfer, and the delivery after it.
fn added(
    rt: &(impl Abort + AllocGlobal),
    held: &mut IncompleteTransfer,
    begins: bool,
    row: Row,
    payload: &'static [u8],
) -> (Option<Back>, Seen) {
    let answer = held.add_or_return(begins, transfer_of(rt, row), Bytes::from_static(payload));
    let back = match answer {
        Ok(()) => None,
        Err(refused) => Some(back(refused)),
    };
    (back, seen(held))
}

const UNTAGGED: Row = Row { tag: None, ..FIRST };

const OTHER: Row = Row {
    tag: Some(2),
    ..BARE
};

const AGAIN: Row = Row {
    id: Some(8),
    tag: Some(1),
    ..BARE
};

#[test]
fn refused_transfers_are_handed_back(rt: HostRuntime) {
    let refused = match started(&rt, UNTAGGED, b"\x00\x53") {
        Ok(held) => {
            drop(held);
            None
        }
        Err(refused) => Some(back(refused)),
    };
    let wanted = Some((Answer::NoTag, UNTAGGED, 2));
    assert_equal_at(&rt, &refused, &wanted, &"a first transfer");
    let mut held = start(&rt, FIRST, b"\x00\x53\x70\xc0");
    let unchanged = (FIRST, 1, 4, (0, 4));
    let refused = added(&rt, &mut held, false, OTHER, b"\x00\x53\x75");
    let wanted = (Some((Answer::Inconsistent, OTHER, 3)), unchanged);
    assert_equal_at(&rt, &refused, &wanted, &"a continuation");
    let refused = added(&rt, &mut held, true, BARE, b"\x00");
    let wanted = (Some((Answer::NoId, BARE, 1)), unchanged);
    assert_equal_at(&rt, &refused, &wanted, &"a resumption");
    let taken = added(&rt, &mut held, true, AGAIN, b"\x00");
    drop(held);
    let row = Row {
        id: Some(8),
        ..FIRST
    };
    assert_equal(&rt, &taken, &(None, (row, 2, 5, (0, 5))));
}

// With one growth refused, whichever it is, the transfer that is handed back is taken the second time. Run by hand with
// `rt try --test --fail-alloc N`.
#[test]
fn refused_growth_hands_the_transfer_back(rt: HostRuntime) {
    let alloc = rt.alloc();
    let held = started(&rt, FIRST, b"\x00\x53").or_else(|refused| {
        IncompleteTransfer::start_or_return(alloc, refused.transfer, refused.payload)
    });
    let Ok(mut held) = held else {
        assert_equal(&rt, &false, &true);
        return;
    };
    let (transfer, payload) = (transfer_of(&rt, BARE), Bytes::from_static(b"\x70"));
    if let Err(refused) = held.add_or_return(false, transfer, payload) {
        let again = held.add_or_return(false, refused.transfer, refused.payload);
        assert_equal_at(&rt, &again.is_ok(), &true, &"the second time");
        drop(again);
    }
    let seen = seen(&held);
    drop(held);
    assert_equal(&rt, &seen, &(FIRST, 2, 3, (0, 3)));
}
