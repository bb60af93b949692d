//! Which sends are registrations.
use crate::assertions::assert_equal;
use crate::calls::{send_payload, send_rest, set_max_frame_size};
use crate::ledgers::{Sent, attached, entry_of, send, send_flagged, sent_as};
use crate::samples::{count_tag, payload_of};
use crate::shown::{Shown, assert_fates};
use amqp_link_ledger::ledger::OutcomeLedger;
use amqp_link_sender::Sending;
use amqp_link_types::delivery::Settlement;
use amqp_link_types::frame::{LinkFrame, LinkTransfer};
use amqp_link_types::types::{
    Handle, InputHandle, LinkStateError, Payload, SenderSettleMode, Target, Transfer,
};
use std::process::Abort;

// The transfer of the delivery with the tag of this count, settled or not.
fn transfer_of(rt: &(impl Abort + AllocGlobal), count: u8, settled: bool) -> Transfer {
    Transfer {
        delivery_tag: Some(count_tag(rt, count)),
        settled: Some(settled),
        ..Transfer::default()
    }
}

// The one frame in which a transfer with one byte goes out.
fn frame_of(rt: &(impl Abort + AllocGlobal), transfer: Transfer) -> Vec<LinkFrame> {
    let frame = LinkFrame::FirstTransfer(LinkTransfer {
        input_handle: InputHandle(0),
        performative: transfer,
        payload: payload_of(rt, &[7]),
    });
    let frames = vec![in rt.alloc(); frame];
    frames.expect(rt, "memory")
}

// What a send answers of the first delivery, of format 5.
fn first_sent(rt: &(impl Abort + AllocGlobal)) -> Sending {
    let transfer = Transfer {
        handle: Handle(0),
        message_format: Some(5),
        ..transfer_of(rt, 0, false)
    };
    Sending::Sent {
        settlement: Settlement::Unsettled(count_tag(rt, 0)),
        frames: frame_of(rt, transfer),
    }
}

// At a limit of 24 not even an empty payload has room in a frame.
fn assert_no_room(rt: &impl Abort, ledger: &mut OutcomeLedger<Target>, payload: &Payload) {
    set_max_frame_size(ledger, 24);
    assert_equal(rt, &send(ledger, payload), &Sent::NoRoom);
    set_max_frame_size(ledger, 512);
}

// A send that is refused makes no number, and neither does one that is settled.
#[test]
fn unsettled_payload_is_a_registration(rt: HostRuntime) {
    let mut ledger = attached(&rt, SenderSettleMode::Mixed, 2);
    let payload = payload_of(&rt, &[7]);
    assert_no_room(&rt, &mut ledger, &payload);
    assert_fates(&rt, &ledger, &[]);
    let sending = send_payload(&mut ledger, &payload, 5, None);
    let sending = sending.expect(&rt, "a payload is sent");
    let wanted = first_sent(&rt);
    assert_equal(&rt, &sending, &wanted);
    drop((sending, wanted));
    assert_no_room(&rt, &mut ledger, &payload);
    let settled = send_flagged(&mut ledger, &payload, Some(true));
    assert_equal(&rt, &settled, &Sent::Settled);
    assert_fates(&rt, &ledger, &[Shown::Pending]);
    drop((payload, ledger));
}

// Sends one byte with a transfer.
fn send_with(
    ledger: &mut OutcomeLedger<Target>,
    payload: &Payload,
    transfer: Transfer,
) -> Result<(Sent, Vec<LinkFrame>), LinkStateError> {
    let (settlement, frames) = ledger.send_payload_with_transfer(3, transfer, payload)?;
    let sent = sent_as(&settlement);
    drop(settlement);
    Ok((sent, frames))
}

// An unsettled transfer is a registration, and a settled one is none.
#[test]
fn unsettled_transfer_is_a_registration(rt: HostRuntime) {
    let mut ledger = attached(&rt, SenderSettleMode::Mixed, 0);
    let payload = payload_of(&rt, &[7]);
    let sent = send_with(&mut ledger, &payload, transfer_of(&rt, 1, false));
    let sent = sent.expect(&rt, "a transfer is sent");
    let wanted = (Sent::Unsettled, frame_of(&rt, transfer_of(&rt, 1, false)));
    assert_equal(&rt, &sent, &wanted);
    drop((sent, wanted));
    let settled = send_with(&mut ledger, &payload, transfer_of(&rt, 2, true));
    let settled = settled.ok().map(|(sent, _)| sent);
    assert_equal(&rt, &settled, &Some(Sent::Settled));
    assert_fates(&rt, &ledger, &[Shown::Pending]);
    drop((payload, ledger));
}

// The rest of a delivery is sent under its tag, and its entry is registered.
#[test]
fn resumed_transfer_is_a_registration(rt: HostRuntime) {
    let mut ledger = attached(&rt, SenderSettleMode::Mixed, 0);
    let rest = payload_of(&rt, &[7]);
    let transfer = transfer_of(&rt, 4, false);
    let entry = entry_of(&rt, None);
    let sent = send_rest(&mut ledger, transfer, &rest, count_tag(&rt, 4), entry);
    let frames = sent.expect(&rt, "a transfer is sent");
    let wanted = frame_of(&rt, transfer_of(&rt, 4, false));
    assert_equal(&rt, &frames, &wanted);
    drop((frames, wanted));
    assert_fates(&rt, &ledger, &[Shown::Pending]);
    drop((rest, ledger));
}
