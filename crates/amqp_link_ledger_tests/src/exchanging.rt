//! What becomes of the registrations as a ledger is attached again, by each kind of answer (2.6.13).
use crate::assertions::{assert_equal, assert_holds_at};
use crate::calls::{pending_in, put_back};
use crate::ledgers::new_ledger;
use crate::samples::{attach_of, count_tag};
use crate::shown::{Shown, assert_fates, assert_outcomes};
use amqp_link_core::resumption::ResumingDelivery;
use amqp_link_ledger::ledger::OutcomeLedger;
use amqp_link_sender::SenderAttachExchange;
use amqp_link_state::state::LinkState;
use amqp_link_tests_support::calls::{local_state, send_attach, take_attach};
use amqp_link_tests_support::links::went;
use amqp_link_types::delivery::UnsettledMessage;
use amqp_link_types::types::{
    Attach, DeliveryState, DeliveryTag, MessageFormat, Payload, Role, SenderSettleMode, Target,
    UnsettledMap,
};
use std::process::Abort;

// The payload of the deliveries, of two sections: the second begins at the fifth byte.
const WHOLE: &[u8] = b"\x00\x53\x70\xc0\x00\x53\x77\x41";

fn place(section_number: u32, section_offset: u64) -> Option<DeliveryState> {
    Some(DeliveryState::Received {
        section_number,
        section_offset,
    })
}

fn failed() -> DeliveryState {
    DeliveryState::Modified {
        delivery_failed: Some(true),
        undeliverable_here: None,
        message_annotations: None,
    }
}

fn rejected() -> Option<DeliveryState> {
    Some(DeliveryState::Rejected { error: None })
}

// The entry of a delivery with this state, of format 5.
fn entry_with(state: Option<DeliveryState>) -> UnsettledMessage {
    UnsettledMessage::new(Payload::from_static(WHOLE), state, 5)
}

// Registers a delivery with this state.
fn register(
    rt: &(impl Abort + AllocGlobal),
    ledger: &mut OutcomeLedger<Target>,
    count: u8,
    state: Option<DeliveryState>,
) {
    let put = put_back(ledger, count_tag(rt, count), entry_with(state));
    assert_holds_at(rt, put, &"a free tag");
}

// A ledger that has sent its attach, with six deliveries, of which two have an outcome of their own.
fn attaching_with_six(rt: &(impl Abort + AllocGlobal)) -> OutcomeLedger<Target> {
    let mut ledger = new_ledger(rt, SenderSettleMode::Mixed);
    register(rt, &mut ledger, 0, None);
    register(rt, &mut ledger, 1, None);
    register(rt, &mut ledger, 2, place(1, 5));
    register(rt, &mut ledger, 3, Some(failed()));
    register(rt, &mut ledger, 4, Some(DeliveryState::Accepted));
    register(rt, &mut ledger, 5, None);
    let sent = went(send_attach(&mut ledger, false));
    assert_holds_at(rt, sent, &"the attach is sent");
    ledger
}

fn put(
    rt: &(impl Abort + AllocGlobal),
    map: &mut UnsettledMap<Option<DeliveryState>>,
    count: u8,
    state: Option<DeliveryState>,
) {
    let put = went(map.put(count_tag(rt, count), state));
    assert_holds_at(rt, put, &"memory");
}

// The attach of a receiver that knows nothing of the deliveries 0 and 4, and one that the sender does not.
fn attach_with_five(rt: &(impl Abort + AllocGlobal)) -> Attach {
    let mut map = UnsettledMap::new(rt.alloc());
    put(rt, &mut map, 9, None);
    put(rt, &mut map, 1, place(0, 5));
    put(rt, &mut map, 2, place(1, 2));
    put(rt, &mut map, 3, rejected());
    put(rt, &mut map, 5, Some(DeliveryState::Released));
    let mut attach = attach_of(rt, Role::Receiver, SenderSettleMode::Mixed);
    attach.unsettled = Some(map);
    attach
}

fn add(
    rt: &(impl Abort + AllocGlobal),
    list: &mut Vec<(DeliveryTag, ResumingDelivery)>,
    count: u8,
    delivery: ResumingDelivery,
) {
    list.push((count_tag(rt, count), delivery))
        .expect(rt, "memory");
}

fn resumed() -> ResumingDelivery {
    ResumingDelivery::Resume {
        entry: entry_with(None),
        rest: Payload::from_static(b"\x53\x77\x41"),
    }
}

fn aborted(message_format: MessageFormat, tag: Option<DeliveryTag>) -> ResumingDelivery {
    ResumingDelivery::Abort {
        message_format,
        tag,
    }
}

fn restated(tag: DeliveryTag) -> ResumingDelivery {
    ResumingDelivery::RestateOutcome {
        tag,
        payload: Payload::from_static(WHOLE),
        local_state: failed(),
        message_format: 5,
    }
}

// The deliveries that are handed out: one is sent again, one resumed, one aborted, the outcome of one stated
// again, and the receiver's own is aborted.
fn wanted_deliveries(rt: &(impl Abort + AllocGlobal)) -> Vec<(DeliveryTag, ResumingDelivery)> {
    let mut list = Vec::new(rt.alloc());
    add(rt, &mut list, 0, ResumingDelivery::Resend(entry_with(None)));
    add(rt, &mut list, 1, resumed());
    add(rt, &mut list, 2, aborted(5, Some(count_tag(rt, 2))));
    add(rt, &mut list, 3, restated(count_tag(rt, 3)));
    add(rt, &mut list, 9, aborted(0, None));
    list
}

const SIX_FATES: [Shown; 6] = [
    Shown::HandedOut,
    Shown::HandedOut,
    Shown::HandedOut,
    Shown::HandedOut,
    Shown::Accepted,
    Shown::Released,
];

// The list of an exchange of complete maps.
fn list_of(exchange: SenderAttachExchange) -> Option<Vec<(DeliveryTag, ResumingDelivery)>> {
    match exchange {
        SenderAttachExchange::Resume(list) => Some(list.into_vec()),
        _ => None,
    }
}

// The delivery that only the receiver knows is in the list, and has no number. Of the outcomes that are returned
// one is the sender's and one the receiver's.
#[test]
fn exchange_moves_each_fate(rt: HostRuntime) {
    let mut ledger = attaching_with_six(&rt);
    let answer = take_attach(&mut ledger, attach_with_five(&rt));
    let (exchange, outcomes) = answer.expect(&rt, "an attach that is accepted");
    let deliveries = list_of(exchange).expect(&rt, "complete maps");
    let wanted = wanted_deliveries(&rt);
    assert_equal(&rt, &deliveries, &wanted);
    drop((deliveries, wanted));
    let wanted = [(4, Shown::Accepted), (5, Shown::Released)];
    assert_outcomes(&rt, &outcomes, &wanted);
    drop(outcomes);
    assert_fates(&rt, &ledger, &SIX_FATES);
    assert_equal(&rt, &local_state(&ledger), &LinkState::Attached);
    assert_equal(&rt, &pending_in(&ledger), &0);
    drop(ledger);
}
