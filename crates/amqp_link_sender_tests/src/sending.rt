//! Worked values of a sender's sends.
use crate::assertions::{assert_equal, assert_equal_at, assert_holds_at};
use crate::calls::{handle_of, is_kept, numbers_of, set_limit};
use crate::led::{attach, credit_arrives};
use crate::samples::{count_in, entry_of, link_of, parts, payload_of, tag_of};
use amqp_link_sender::{SenderLink, Sending, Waiting};
use amqp_link_state::state::LinkState;
use amqp_link_tests_support::calls::local_state;
use amqp_link_tests_support::table::detach;
use amqp_link_types::delivery::{Settlement, UnsettledMessage};
use amqp_link_types::frame::LinkFrame;
use amqp_link_types::types::{DeliveryState, LinkStateError, Payload, Target, Transfer};
use std::process::Abort;

// The link "l" with output handle 0 and count 0 once it is attached, with this frame limit and credit.
pub(crate) fn link(rt: &(impl Abort + AllocGlobal), limit: u32, credit: u32) -> SenderLink<Target> {
    let mut link = link_of(rt, parts(rt, 512));
    attach(rt, &mut link);
    credit_arrives(rt, &mut link, credit);
    set_limit(&mut link, limit);
    link
}

// Sends a payload of format 0 while this is pending.
fn send(
    link: &mut SenderLink<Target>,
    waiting: Waiting,
    payload: &Payload,
) -> Result<Sending, LinkStateError> {
    link.send_payload(waiting, payload, 0, None, None, false)
}

// The result of a send. `Other` stands for those that no test compares.
#[derive(Clone, Copy, Debug, PartialEq, Eq)]
enum SendAnswer {
    Unsettled,
    NoRoom,
    RemoteClosed,
    Other,
}

fn answer_in(sending: &Result<Sending, LinkStateError>) -> SendAnswer {
    match sending {
        Ok(
            Sending::Sent {
                settlement: Settlement::Unsettled(_),
                ..
            },
        ) => SendAnswer::Unsettled,
        Err(LinkStateError::NoRoom) => SendAnswer::NoRoom,
        Err(LinkStateError::RemoteClosed) => SendAnswer::RemoteClosed,
        _ => SendAnswer::Other,
    }
}

// The result of a send of these bytes while this is pending.
fn answered(
    rt: &(impl Abort + AllocGlobal),
    link: &mut SenderLink<Target>,
    waiting: Waiting,
    bytes: &[u8],
) -> SendAnswer {
    let payload = payload_of(rt, bytes);
    let sending = send(link, waiting, &payload);
    let answer = answer_in(&sending);
    drop((sending, payload));
    answer
}

// Sends a delivery of these bytes, which awaits its outcome.
pub(crate) fn send_one(
    rt: &(impl Abort + AllocGlobal),
    link: &mut SenderLink<Target>,
    bytes: &[u8],
) {
    let answer = answered(rt, link, Waiting::Nothing, bytes);
    assert_equal(rt, &answer, &SendAnswer::Unsettled);
}

// What a frame shows: whether it is a first one, its payload's length, and the fields of its transfer.
#[derive(Clone, Copy, Debug, PartialEq, Eq)]
struct Shown {
    first: bool,
    payload: usize,
    more: bool,
    resume: bool,
    tagged: bool,
    message_format: Option<u32>,
    settled: Option<bool>,
    delivery_id: Option<u32>,
}

fn shown_at(frame: Option<&LinkFrame>) -> Option<Shown> {
    let frame = frame?;
    let transfer = frame.as_transfer()?;
    Some(Shown {
        first: matches!(frame, LinkFrame::FirstTransfer(_)),
        payload: transfer.payload.len(),
        more: transfer.performative.more,
        resume: transfer.performative.resume,
        tagged: transfer.performative.delivery_tag.is_some(),
        message_format: transfer.performative.message_format,
        settled: transfer.performative.settled,
        delivery_id: transfer.performative.delivery_id,
    })
}

// How many frames there are, and what the first, the second and the last show.
type Frames = (usize, [Option<Shown>; 3]);

fn shown_in(frames: &[LinkFrame]) -> Frames {
    let shown = [
        shown_at(frames.first()),
        shown_at(frames.get(1)),
        shown_at(frames.last()),
    ];
    (frames.len(), shown)
}

// The first frame of a delivery of format 0 that awaits its outcome, with so many bytes.
fn first_with(payload: usize, more: bool) -> Shown {
    Shown {
        first: true,
        payload,
        more,
        resume: false,
        tagged: true,
        message_format: Some(0),
        settled: Some(false),
        delivery_id: None,
    }
}

// A frame after the first, with so many bytes.
fn next_with(payload: usize, more: bool) -> Shown {
    Shown {
        first: false,
        payload,
        more,
        resume: false,
        tagged: false,
        message_format: None,
        settled: None,
        delivery_id: None,
    }
}

fn frames_in(sending: &Result<Sending, LinkStateError>) -> Option<Frames> {
    match sending {
        Ok(Sending::Sent { frames, .. }) => Some(shown_in(frames.as_slice())),
        _ => None,
    }
}

// What the frames of these bytes show, if they are sent.
fn frames_sent(
    rt: &(impl Abort + AllocGlobal),
    link: &mut SenderLink<Target>,
    bytes: &[u8],
) -> Option<Frames> {
    let payload = payload_of(rt, bytes);
    let sending = send(link, Waiting::Nothing, &payload);
    let frames = frames_in(&sending);
    drop((sending, payload));
    frames
}

// Twelve bytes at 30 go as five, five and two; only the first frame names the delivery, which is pending then with
// all its bytes.
#[test]
fn twelve_bytes_are_three_frames(rt: HostRuntime) {
    let bytes: &[u8] = &[1, 2, 3, 4, 5, 6, 7, 8, 9, 10, 11, 12];
    let mut link = link(&rt, 30, 1);
    let frames = frames_sent(&rt, &mut link, bytes);
    let is_kept = is_kept(&rt, &link, 0, entry_of(&rt, bytes, 0));
    drop(link);
    let shown = [
        Some(first_with(5, true)),
        Some(next_with(5, true)),
        Some(next_with(2, false)),
    ];
    assert_equal(&rt, &frames, &Some((3, shown)));
    assert_holds_at(&rt, is_kept, &"the delivery is pending");
}

// The result of a send, and then the credit, the count, and how many deliveries are pending.
type Standing = (SendAnswer, (u32, u32, usize));

// What a link with credit 1 at this limit shows after a send of these bytes.
fn sent_at(rt: &(impl Abort + AllocGlobal), limit: u32, bytes: &[u8]) -> Standing {
    let mut link = link(rt, limit, 1);
    let answer = answered(rt, &mut link, Waiting::Nothing, bytes);
    let numbers = numbers_of(&link);
    drop(link);
    (answer, numbers)
}

// What it shows if the bytes are sent, and if they have no room: then nothing changes.
fn standing(is_sent: bool) -> Standing {
    if is_sent {
        (SendAnswer::Unsettled, (0, 1, 1))
    } else {
        (SendAnswer::NoRoom, (1, 0, 0))
    }
}

// At 25 the empty payload is sent in one frame, and one byte has no room.
#[test]
fn frames_have_room_or_nothing_changes(rt: HostRuntime) {
    let rows: &[(u32, &'static [u8], bool)] = &[
        (0, b"", false),
        (3, b"", false),
        (24, b"", false),
        (25, b"", true),
        (25, b"\x07", false),
    ];
    for (limit, bytes, is_sent) in rows {
        let actual = sent_at(&rt, *limit, bytes);
        assert_equal_at(&rt, &actual, &standing(*is_sent), &(limit, is_sent));
    }
}

// An unsettled transfer of the delivery of count 1, with a state.
fn transfer(rt: &(impl Abort + AllocGlobal)) -> Transfer {
    Transfer {
        delivery_tag: Some(tag_of(rt, 1)),
        settled: Some(false),
        state: Some(DeliveryState::Accepted),
        ..Transfer::default()
    }
}

// The count of a delivery that awaits its outcome.
fn unsettled_in(settlement: &Settlement) -> Option<u32> {
    match settlement {
        Settlement::Unsettled(tag) => count_in(tag),
        Settlement::Settled(_) => None,
    }
}

// Sends these bytes in format 3 with a transfer: the count of the delivery if it awaits its outcome, and its frames.
fn sent_with(
    rt: &(impl Abort + AllocGlobal),
    link: &mut SenderLink<Target>,
    transfer: Transfer,
    bytes: &[u8],
) -> Option<(Option<u32>, Frames)> {
    let payload = payload_of(rt, bytes);
    let sent = link.send_payload_with_transfer(3, transfer, &payload);
    let shown = match &sent {
        Ok((settlement, frames)) => Some((unsettled_in(settlement), shown_in(frames.as_slice()))),
        Err(_) => None,
    };
    drop((sent, payload));
    shown
}

// The one frame of a transfer has the fields of the transfer; the delivery is pending without a state.
#[test]
fn frames_go_with_their_transfer(rt: HostRuntime) {
    let bytes: &[u8] = &[7, 8];
    let mut link = link(&rt, 64, 0);
    let sent = sent_with(&rt, &mut link, transfer(&rt), bytes);
    let is_kept = is_kept(&rt, &link, 1, entry_of(&rt, bytes, 3));
    drop(link);
    let only = Some(Shown {
        message_format: None,
        ..first_with(2, false)
    });
    assert_equal(&rt, &sent, &Some((Some(1), (1, [only, None, only]))));
    assert_holds_at(&rt, is_kept, &"the delivery is pending");
}

// The frames of one byte with a transfer that names nothing, and whether it is sent settled.
fn frames_alone(rt: &(impl Abort + AllocGlobal)) -> Option<(bool, Frames)> {
    let link = link(rt, 64, 0);
    let payload = payload_of(rt, &[7]);
    let sent = link.send_transfer_without_modifying_unsettled_map(Transfer::default(), &payload);
    let shown = match &sent {
        Ok((is_settled, frames)) => Some((*is_settled, shown_in(frames.as_slice()))),
        Err(_) => None,
    };
    drop((sent, payload));
    drop(link);
    shown
}

// The frames alone need no tag.
#[test]
fn frames_alone_need_no_tag(rt: HostRuntime) {
    let only = Some(Shown {
        first: true,
        ..next_with(1, false)
    });
    let wanted = Some((false, (1, [only, None, only])));
    assert_equal(&rt, &frames_alone(&rt), &wanted);
}

const MESSAGE: [u8; 16] = [0, 83, 117, 160, 11, 1, 2, 3, 4, 5, 6, 7, 8, 9, 10, 11];

// The entry of a delivery of sixteen bytes, of which the receiver has four.
fn begun(rt: &(impl Abort + AllocGlobal)) -> UnsettledMessage {
    let received = DeliveryState::Received {
        section_number: 0,
        section_offset: 4,
    };
    UnsettledMessage::new(payload_of(rt, &MESSAGE), Some(received), 0)
}

// The transfer that resumes the delivery of count 7.
fn resuming(rt: &(impl Abort + AllocGlobal), link: &SenderLink<Target>) -> Transfer {
    let transfer = link.generate_resuming_transfer_performative(tag_of(rt, 7), 0, None, false);
    transfer.expect(rt, "a transfer")
}

// Sends the last twelve bytes of that delivery with this transfer: its frames.
fn rest_sent(
    rt: &(impl Abort + AllocGlobal),
    link: &mut SenderLink<Target>,
    transfer: Transfer,
) -> Option<Frames> {
    let rest = payload_of(rt, &MESSAGE[4..]);
    let sent = link.send_unsettled_transfer(transfer, &rest, tag_of(rt, 7), begun(rt));
    let shown = match &sent {
        Ok(frames) => Some(shown_in(frames.as_slice())),
        Err(_) => None,
    };
    drop((sent, rest));
    shown
}

// A frame of 30 bytes has two beside a resuming transfer. The entry is registered with all its bytes, and
// the one credit is left.
#[test]
fn rest_of_a_delivery_is_sent(rt: HostRuntime) {
    let mut link = link(&rt, 30, 1);
    let transfer = resuming(&rt, &link);
    let frames = rest_sent(&rt, &mut link, transfer);
    let is_kept = is_kept(&rt, &link, 7, begun(&rt));
    let numbers = numbers_of(&link);
    drop(link);
    let first = Shown {
        resume: true,
        ..first_with(2, true)
    };
    let second = Shown {
        resume: true,
        ..next_with(2, true)
    };
    let last = Shown {
        more: false,
        ..second
    };
    let wanted = Some((6, [Some(first), Some(second), Some(last)]));
    assert_equal(&rt, &frames, &wanted);
    assert_holds_at(&rt, is_kept, &"the whole entry is registered");
    assert_equal(&rt, &numbers, &(1, 0, 1));
}

// What the abort of delivery 7 shows at this frame limit, or why it is refused.
fn abort_at(
    rt: &(impl Abort + AllocGlobal),
    limit: u32,
) -> Result<(Option<Shown>, bool), LinkStateError> {
    let mut link = link(rt, 30, 0);
    set_limit(&mut link, limit);
    let tag = tag_of(rt, 7);
    let aborted = link.send_abort(&tag, 0).map(|frame| {
        let is_aborted = frame
            .as_transfer()
            .is_some_and(|transfer| transfer.performative.aborted);
        let shown = shown_at(Some(&frame));
        drop(frame);
        (shown, is_aborted)
    });
    drop((tag, link));
    aborted
}

// It has 25 bytes behind the four of the frame header, and needs no credit.
#[test]
fn abort_fits_29_bytes(rt: HostRuntime) {
    let wanted = Shown {
        resume: true,
        settled: Some(true),
        ..first_with(0, false)
    };
    assert_equal(&rt, &abort_at(&rt, 29), &Ok((Some(wanted), true)));
    assert_equal(&rt, &abort_at(&rt, 28), &Err(LinkStateError::NoRoom));
}

// A detach that closes the link arrives while a payload is to be sent: the credit is kept.
#[test]
fn waiting_detach_is_recorded(rt: HostRuntime) {
    let mut link = link(&rt, 512, 1);
    let waiting = Waiting::Frame(LinkFrame::Detach(detach(true)));
    let answer = answered(&rt, &mut link, waiting, &[7]);
    let left = (
        answer,
        local_state(&link),
        handle_of(&link),
        numbers_of(&link),
    );
    drop(link);
    let wanted = (SendAnswer::RemoteClosed, LinkState::Closed, None, (1, 0, 0));
    assert_equal(&rt, &left, &wanted);
}
