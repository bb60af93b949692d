// Deliveries whose transfers and answers were worked out by hand.
use crate::assertions::{assert_equal, assert_equal_at};
use amqp_link_core::incomplete_transfer::IncompleteTransfer;
use amqp_link_types::types::{
    DeliveryState, DeliveryTag, ReceiverTransferError as Refused, Transfer,
};
use bytes::Bytes;
use std::process::Abort;

mod resuming;
mod returning;

// The state that a transfer carries.
#[derive(Clone, Copy, Debug, PartialEq, Eq)]
enum Shown {
    Nothing,
    Front,
    Accepted,
}

// The fields of a transfer, its tag as one byte.
#[derive(Clone, Copy, Debug, PartialEq, Eq)]
struct Row {
    id: Option<u32>,
    tag: Option<u8>,
    format: Option<u32>,
    settled: Option<bool>,
    state: Shown,
}

const BARE: Row = Row {
    id: None,
    tag: None,
    format: None,
    settled: None,
    state: Shown::Nothing,
};

const FIRST: Row = Row {
    id: Some(0),
    tag: Some(1),
    format: Some(0),
    settled: None,
    state: Shown::Nothing,
};

// Whether a transfer is taken, and why it is not.
#[derive(Clone, Copy, Debug, PartialEq, Eq)]
enum Answer {
    Taken,
    NoId,
    NoTag,
    Inconsistent,
    Other,
}

fn answer_of<T: Drop>(answer: Result<T, Refused>) -> Answer {
    let shown = match &answer {
        Ok(_) => Answer::Taken,
        Err(Refused::DeliveryIdIsNone) => Answer::NoId,
        Err(Refused::DeliveryTagIsNone) => Answer::NoTag,
        Err(Refused::InconsistentFieldInMultiFrameDelivery) => Answer::Inconsistent,
        Err(_) => Answer::Other,
    };
    drop(answer);
    shown
}

fn state_of(shown: Shown) -> Option<DeliveryState> {
    match shown {
        Shown::Nothing => None,
        Shown::Front => Some(DeliveryState::Received {
            section_number: 0,
            section_offset: 2,
        }),
        Shown::Accepted => Some(DeliveryState::Accepted),
    }
}

fn shown_by(state: &Option<DeliveryState>) -> Shown {
    match state {
        Some(DeliveryState::Received { .. }) => Shown::Front,
        Some(DeliveryState::Accepted) => Shown::Accepted,
        _ => Shown::Nothing,
    }
}

fn tag_of(rt: &(impl Abort + AllocGlobal), tag: Option<u8>) -> Option<DeliveryTag> {
    let byte = tag?;
    let alloc = rt.alloc();
    let bytes = vec![in alloc; byte].or_else(|_| vec![in alloc; byte]);
    Some(DeliveryTag::from(bytes.expect(rt, "memory")))
}

fn transfer_of(rt: &(impl Abort + AllocGlobal), row: Row) -> Transfer {
    Transfer {
        delivery_id: row.id,
        delivery_tag: tag_of(rt, row.tag),
        message_format: row.format,
        settled: row.settled,
        state: state_of(row.state),
        ..Transfer::default()
    }
}

fn row_of(transfer: &Transfer) -> Row {
    Row {
        id: transfer.delivery_id,
        tag: match &transfer.delivery_tag {
            Some(tag) => tag.as_bytes().first().copied(),
            None => None,
        },
        format: transfer.message_format,
        settled: transfer.settled,
        state: shown_by(&transfer.state),
    }
}

fn begun(
    rt: &(impl Abort + AllocGlobal),
    row: Row,
    payload: &'static [u8],
) -> Result<IncompleteTransfer, Refused> {
    IncompleteTransfer::start(
        rt.alloc(),
        transfer_of(rt, row),
        Bytes::from_static(payload),
    )
}

fn start(rt: &(impl Abort + AllocGlobal), row: Row, payload: &'static [u8]) -> IncompleteTransfer {
    begun(rt, row, payload).expect(rt, "a first transfer")
}

fn append(
    rt: &(impl Abort + AllocGlobal),
    held: &mut IncompleteTransfer,
    row: Row,
    payload: &'static [u8],
) -> Answer {
    answer_of(held.try_append(transfer_of(rt, row), Bytes::from_static(payload)))
}

// The fields, how many pieces, in what size and position.
type Seen = (Row, usize, u64, (u32, u64));

fn seen(held: &IncompleteTransfer) -> Seen {
    (
        row_of(held.performative()),
        held.pieces().len(),
        held.accumulated_payload_size(),
        held.position(),
    )
}

// The answer to an append, and the delivery after it.
fn appended(
    rt: &(impl Abort + AllocGlobal),
    held: &mut IncompleteTransfer,
    row: Row,
    payload: &'static [u8],
) -> (Answer, Seen) {
    (append(rt, held, row, payload), seen(held))
}

#[test]
fn first_transfer_names_delivery(rt: HostRuntime) {
    let unnamed = Row { id: None, ..FIRST };
    let answer = answer_of(begun(&rt, unnamed, b""));
    assert_equal_at(&rt, &answer, &Answer::NoId, &"no id");
    let untagged = Row { tag: None, ..FIRST };
    let answer = answer_of(begun(&rt, untagged, b""));
    assert_equal_at(&rt, &answer, &Answer::NoTag, &"no tag");
}

// Whether a delivery takes a transfer of this tag for its own.
fn is_same(rt: &(impl Abort + AllocGlobal), held: &IncompleteTransfer, tag: Option<u8>) -> bool {
    let transfer = transfer_of(rt, Row { tag, ..BARE });
    let is_same = held.is_same_delivery_as(&transfer);
    drop(transfer);
    is_same
}

const OTHERS: &[(Row, &str)] = &[
    (
        Row {
            tag: Some(2),
            ..BARE
        },
        "another tag",
    ),
    (
        Row {
            id: Some(1),
            ..BARE
        },
        "another id",
    ),
    (
        Row {
            format: Some(1),
            ..BARE
        },
        "another format",
    ),
];

#[test]
fn continuation_fits_delivery(rt: HostRuntime) {
    let mut held = start(&rt, FIRST, b"\x00\x53\x70\xc0");
    let unchanged = (Answer::Inconsistent, (FIRST, 1, 4, (0, 4)));
    for (row, message) in OTHERS {
        let refused = appended(&rt, &mut held, *row, b"\x00\x53\x75");
        assert_equal_at(&rt, &refused, &unchanged, message);
    }
    let longer = appended(&rt, &mut held, BARE, &[1; 17]);
    let same = [
        is_same(&rt, &held, Some(1)),
        is_same(&rt, &held, None),
        is_same(&rt, &held, Some(2)),
    ];
    drop(held);
    assert_equal(&rt, &longer, &(Answer::Taken, (FIRST, 2, 21, (0, 21))));
    assert_equal(&rt, &same, &[true, true, false]);
}

// The flag and the state of a delivery of two such transfers.
fn merged(
    rt: &(impl Abort + AllocGlobal),
    first: (Option<bool>, Shown),
    then: (Option<bool>, Shown),
) -> (Option<bool>, Shown) {
    let opening = Row {
        settled: first.0,
        state: first.1,
        ..FIRST
    };
    let next = Row {
        settled: then.0,
        state: then.1,
        ..BARE
    };
    let mut held = start(rt, opening, b"");
    let row = appended(rt, &mut held, next, b"").1.0;
    drop(held);
    (row.settled, row.state)
}

#[test]
fn settlement_and_outcome_stay(rt: HostRuntime) {
    let (yes, no) = ((Some(true), Shown::Nothing), (Some(false), Shown::Nothing));
    assert_equal_at(&rt, &merged(&rt, yes, no), &yes, &"true stays");
    let (accepted, front) = ((None, Shown::Accepted), (None, Shown::Front));
    assert_equal_at(
        &rt,
        &merged(&rt, accepted, front),
        &accepted,
        &"an outcome stays",
    );
}

fn of_format(format: u32) -> Row {
    Row {
        format: Some(format),
        ..BARE
    }
}

#[test]
fn first_format_stays(rt: HostRuntime) {
    let opening = Row {
        format: None,
        ..FIRST
    };
    let mut held = start(&rt, opening, b"");
    let second = appended(&rt, &mut held, of_format(2), b"");
    let third = appended(&rt, &mut held, of_format(3), b"\x41");
    drop(held);
    let row = Row {
        format: Some(2),
        ..FIRST
    };
    let wanted = (row, 2, 0, (0, 0));
    assert_equal(&rt, &second, &(Answer::Taken, wanted));
    assert_equal(&rt, &third, &(Answer::Inconsistent, wanted));
}

// The fields, the number of pieces, and the position of a delivery that is taken apart.
fn parts_of(held: IncompleteTransfer) -> (Row, usize, (u32, u64)) {
    let (transfer, pieces, number, offset) = held.into_parts();
    let parts = (row_of(&transfer), pieces.len(), (number, offset));
    drop((transfer, pieces));
    parts
}

fn copy_of(rt: &impl Abort, held: &IncompleteTransfer) -> IncompleteTransfer {
    held.clone().expect(rt, "memory")
}

#[test]
fn position_is_of_joined_pieces(rt: HostRuntime) {
    let mut held = start(&rt, FIRST, b"\x00\x53\x70\xc0\x00");
    let first = seen(&held);
    let empty = appended(&rt, &mut held, BARE, b"");
    let last = appended(&rt, &mut held, BARE, b"\x53\x77\x41");
    let copy = copy_of(&rt, &held);
    let copied = seen(&copy);
    let parts = (parts_of(held), parts_of(copy));
    let joined = (FIRST, 3, 8, (1, 4));
    assert_equal(&rt, &first, &(FIRST, 1, 5, (0, 5)));
    assert_equal(&rt, &empty, &(Answer::Taken, (FIRST, 2, 5, (0, 5))));
    assert_equal(&rt, &last, &(Answer::Taken, joined));
    assert_equal(&rt, &copied, &joined);
    let apart = (FIRST, 3, (1, 4));
    assert_equal(&rt, &parts, &(apart, apart));
}
