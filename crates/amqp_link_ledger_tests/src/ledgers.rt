//! Ledgers that are brought to a state by public calls.
use crate::assertions::{assert_equal, assert_holds_at};
use crate::calls::{put_back, send_payload, take_flow};
use crate::samples::{attach_of, count_tag, parts, payload_of};
use amqp_link_endpoint::endpoint::LinkExt;
use amqp_link_ledger::ledger::OutcomeLedger;
use amqp_link_sender::{SenderLink, Sending};
use amqp_link_state::state::LinkState;
use amqp_link_tests_support::calls::{
    local_state, lose_session, send_attach, set_output_handle, take_attach,
};
use amqp_link_tests_support::links::went;
use amqp_link_types::delivery::{Settlement, UnsettledMessage};
use amqp_link_types::types::{
    DeliveryState, LinkFlow, LinkStateError, OutputHandle, Payload, Role, SenderSettleMode, Target,
};
use std::process::Abort;

// The link "l" with output handle 0 in this mode, that is not attached.
pub(crate) fn new_link(
    rt: &(impl Abort + AllocGlobal),
    mode: SenderSettleMode,
) -> SenderLink<Target> {
    SenderLink::new(rt.alloc(), parts(rt, mode)).with_output_handle(OutputHandle(0))
}

pub(crate) fn ledger_round(
    rt: &(impl Abort + AllocGlobal),
    link: SenderLink<Target>,
) -> OutcomeLedger<Target> {
    OutcomeLedger::new(rt.alloc(), link)
        .ok()
        .expect(rt, "memory")
}

// A ledger round such a link.
pub(crate) fn new_ledger(
    rt: &(impl Abort + AllocGlobal),
    mode: SenderSettleMode,
) -> OutcomeLedger<Target> {
    ledger_round(rt, new_link(rt, mode))
}

fn attach(
    rt: &(impl Abort + AllocGlobal),
    ledger: &mut OutcomeLedger<Target>,
    mode: SenderSettleMode,
) {
    let theirs = attach_of(rt, Role::Receiver, mode);
    let goes = went(send_attach(ledger, false)) && went(take_attach(ledger, theirs));
    assert_holds_at(rt, goes, &"the link is attached");
}

fn grant(ledger: &mut OutcomeLedger<Target>, credit: u32) {
    let flow = LinkFlow {
        link_credit: Some(credit),
        ..LinkFlow::default()
    };
    drop(take_flow(ledger, flow));
}

// The same once it is attached and has this credit.
pub(crate) fn attached(
    rt: &(impl Abort + AllocGlobal),
    mode: SenderSettleMode,
    credit: u32,
) -> OutcomeLedger<Target> {
    let mut ledger = new_ledger(rt, mode);
    attach(rt, &mut ledger, mode);
    grant(&mut ledger, credit);
    assert_equal(rt, &local_state(&ledger), &LinkState::Attached);
    ledger
}

// How a send is answered.
#[derive(Clone, Copy, Debug, PartialEq, Eq)]
pub(crate) enum Sent {
    Unsettled,
    Settled,
    NoRoom,
    TagPending,
    CreditMissing,
    OutOfMemory,
    Other,
}

pub(crate) fn sent_as(settlement: &Settlement) -> Sent {
    match settlement {
        Settlement::Unsettled(_) => Sent::Unsettled,
        Settlement::Settled(_) => Sent::Settled,
    }
}

pub(crate) fn sent_of(sending: &Result<Sending, LinkStateError>) -> Sent {
    match sending {
        Ok(Sending::Sent { settlement, .. }) => sent_as(settlement),
        Ok(Sending::CreditMissing) => Sent::CreditMissing,
        Err(LinkStateError::NoRoom) => Sent::NoRoom,
        Err(LinkStateError::TagPending) => Sent::TagPending,
        Err(LinkStateError::OutOfMemory) => Sent::OutOfMemory,
        Err(_) => Sent::Other,
    }
}

// Sends a payload with this flag.
pub(crate) fn send_flagged(
    ledger: &mut OutcomeLedger<Target>,
    payload: &Payload,
    settled: Option<bool>,
) -> Sent {
    let sending = send_payload(ledger, payload, 0, settled);
    let sent = sent_of(&sending);
    drop(sending);
    sent
}

pub(crate) fn send(ledger: &mut OutcomeLedger<Target>, payload: &Payload) -> Sent {
    send_flagged(ledger, payload, None)
}

// An attached ledger that has sent deliveries of one byte, with the tags 00000000 to 00000002.
pub(crate) fn three_sent(
    rt: &(impl Abort + AllocGlobal),
    mode: SenderSettleMode,
) -> OutcomeLedger<Target> {
    let mut ledger = attached(rt, mode, 3);
    let payload = payload_of(rt, &[7]);
    for _ in 0..3 {
        assert_equal(rt, &send(&mut ledger, &payload), &Sent::Unsettled);
    }
    drop(payload);
    ledger
}

// The entry of a delivery of one byte with this state.
pub(crate) fn entry_of(
    rt: &(impl Abort + AllocGlobal),
    state: Option<DeliveryState>,
) -> UnsettledMessage {
    UnsettledMessage::new(payload_of(rt, &[7]), state, 0)
}

// Whether an entry without a state is registered under the tag of this count.
pub(crate) fn put(
    rt: &(impl Abort + AllocGlobal),
    ledger: &mut OutcomeLedger<Target>,
    count: u8,
) -> bool {
    put_back(ledger, count_tag(rt, count), entry_of(rt, None))
}

// The session of an attached link is lost, and the link sends its attach again.
pub(crate) fn reattach(rt: &(impl Abort + AllocGlobal), ledger: &mut OutcomeLedger<Target>) {
    lose_session(ledger);
    set_output_handle(ledger, Some(OutputHandle(0)));
    let sent = went(send_attach(ledger, false));
    assert_holds_at(rt, sent, &"the attach is sent again");
}
