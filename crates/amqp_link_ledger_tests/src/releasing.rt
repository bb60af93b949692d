//! A ledger for years: fates that are released, tags of its user's own, credit that is kept of a drain, and its own flow.
use crate::assertions::assert_equal;
use crate::calls::{credit_of, send_tagged, take_acceptance};
use crate::ledgers::{Sent, attached, send, three_sent};
use crate::samples::{count_tag, payload_of};
use crate::shown::{Shown, assert_fates};
use amqp_link_endpoint::endpoint::LinkDetach;
use amqp_link_ledger::fate::StillPending;
use amqp_link_ledger::ledger::OutcomeLedger;
use amqp_link_sender::{Sending, Waiting};
use amqp_link_tests_support::links::{FlowFields, flow_fields, reply_fields};
use amqp_link_types::delivery::Settlement;
use amqp_link_types::frame::{LinkFrame, LinkTransfer};
use amqp_link_types::types::{
    DeliveryTag, Handle, InputHandle, LinkFlow, LinkRelayError, SenderSettleMode, Target, Transfer,
};
use std::process::Abort;

fn release(ledger: &mut OutcomeLedger<Target>, before: usize) -> Result<(), StillPending> {
    ledger.release(before)
}

// The receiver accepts and settles the delivery of this count.
fn accept(rt: &(impl Abort + AllocGlobal), ledger: &mut OutcomeLedger<Target>, count: u8) {
    let tag = count_tag(rt, count);
    drop(take_acceptance(ledger, &tag).expect(rt, "memory"));
    drop(tag);
}

// A pending one stands in the way. What is released has no fate any more, and the numbers go on.
#[test]
fn fates_are_released_in_order(rt: HostRuntime) {
    let mut ledger = three_sent(&rt, SenderSettleMode::Unsettled);
    assert_equal(&rt, &release(&mut ledger, 0), &Ok(()));
    assert_equal(&rt, &release(&mut ledger, 1), &Err(StillPending(0)));
    accept(&rt, &mut ledger, 0);
    accept(&rt, &mut ledger, 2);
    assert_equal(&rt, &release(&mut ledger, 3), &Err(StillPending(1)));
    let kept = [Shown::Accepted, Shown::Pending, Shown::Accepted];
    assert_fates(&rt, &ledger, &kept);
    assert_equal(&rt, &release(&mut ledger, 1), &Ok(()));
    let left = [Shown::Forgotten, Shown::Pending, Shown::Accepted];
    assert_fates(&rt, &ledger, &left);
    accept(&rt, &mut ledger, 1);
    assert_equal(&rt, &release(&mut ledger, usize::MAX), &Ok(()));
    assert_equal(&rt, &release(&mut ledger, 2), &Ok(()));
    let none = [Shown::Forgotten, Shown::Forgotten, Shown::Forgotten];
    assert_fates(&rt, &ledger, &none);
    drop(ledger);
}

// What a send under the tag 0a0b answers, of format 5.
fn tagged_sent(rt: &(impl Abort + AllocGlobal)) -> Sending {
    let tag = || DeliveryTag::copied(rt.alloc(), &[10, 11]).expect(rt, "memory");
    let frame = LinkFrame::FirstTransfer(LinkTransfer {
        input_handle: InputHandle(0),
        performative: Transfer {
            handle: Handle(0),
            delivery_tag: Some(tag()),
            message_format: Some(5),
            settled: Some(false),
            ..Transfer::default()
        },
        payload: payload_of(rt, &[7]),
    });
    Sending::Sent {
        settlement: Settlement::Unsettled(tag()),
        frames: vec![in rt.alloc(); frame].expect(rt, "memory"),
    }
}

// One credit each; the tag is pending until the delivery is settled.
#[test]
fn a_tag_of_its_own_takes_one_credit(rt: HostRuntime) {
    let mut ledger = attached(&rt, SenderSettleMode::Mixed, 2);
    let payload = payload_of(&rt, &[7]);
    let sending = ledger.send_payload_with_tag(
        Waiting::Nothing,
        &[10, 11],
        &payload,
        5,
        None,
        None,
        false,
    );
    let wanted = Ok(tagged_sent(&rt));
    assert_equal(&rt, &sending, &wanted);
    drop((sending, wanted));
    assert_equal(&rt, &credit_of(&ledger), &1);
    let again = send_tagged(&mut ledger, &[10, 11], &payload);
    assert_equal(&rt, &again, &Sent::TagPending);
    let another = send_tagged(&mut ledger, &[10, 12], &payload);
    assert_equal(&rt, &another, &Sent::Unsettled);
    let third = send_tagged(&mut ledger, &[10, 13], &payload);
    assert_equal(&rt, &third, &Sent::CreditMissing);
    assert_fates(&rt, &ledger, &[Shown::Pending, Shown::Pending]);
    drop((payload, ledger));
}

// The receiver's flow, which grants so much and drains.
fn draining(credit: u32, echo: bool) -> LinkFlow {
    LinkFlow {
        link_credit: Some(credit),
        drain: true,
        echo,
        ..LinkFlow::default()
    }
}

// A sender's flow at this count with this credit.
fn stated(count: u32, credit: u32, drain: bool) -> FlowFields {
    FlowFields {
        handle: 0,
        count: Some(count),
        credit: Some(credit),
        available: Some(0),
        drain,
        echo: false,
        has_properties: false,
    }
}

// Of three credits one is spent, and two are given back; without a drain there are none to give back.
#[test]
fn credit_is_kept_until_it_is_given_back(rt: HostRuntime) {
    let mut ledger = attached(&rt, SenderSettleMode::Unsettled, 0);
    let none = reply_fields(ledger.give_back_credit());
    assert_equal(&rt, &none, &Ok(None));
    let reply = reply_fields(ledger.on_incoming_flow_keeping_credit(draining(3, true)));
    assert_equal(&rt, &reply, &Ok(Some(stated(0, 3, true))));
    let payload = payload_of(&rt, &[7]);
    assert_equal(&rt, &send(&mut ledger, &payload), &Sent::Unsettled);
    let rest = reply_fields(ledger.give_back_credit());
    assert_equal(&rt, &rest, &Ok(Some(stated(3, 0, true))));
    assert_equal(&rt, &credit_of(&ledger), &0);
    drop((payload, ledger));
}

#[test]
fn a_sender_states_its_own_flow(rt: HostRuntime) {
    let mut ledger = three_sent(&rt, SenderSettleMode::Unsettled);
    let sent = ledger.send_flow(Some(4), true, false);
    let fields = match &sent {
        Ok(LinkFrame::Flow(flow)) => Some(flow_fields(flow)),
        _ => None,
    };
    drop((sent, ledger));
    let wanted = FlowFields {
        available: Some(4),
        echo: true,
        ..stated(3, 0, false)
    };
    assert_equal(&rt, &fields, &Some(wanted));
}

#[test]
fn without_a_handle_no_credit_is_given_back(rt: HostRuntime) {
    let mut ledger = attached(&rt, SenderSettleMode::Unsettled, 0);
    ledger.on_session_lost();
    let refused = Err(LinkRelayError::UnattachedHandle);
    assert_equal(&rt, &reply_fields(ledger.give_back_credit()), &refused);
    let kept = reply_fields(ledger.on_incoming_flow_keeping_credit(draining(1, false)));
    assert_equal(&rt, &kept, &refused);
    drop(ledger);
}
