//! Worked values of a sender that keeps the credit of a drain, of its own flow, and of a delivery under a tag of its user's own.
use crate::assertions::{assert_equal, assert_holds_at};
use crate::calls::numbers_of;
use crate::samples::{entry_of, payload_of};
use crate::sending::{link, send_one};
use amqp_link_endpoint::endpoint::LinkExt;
use amqp_link_sender::{SenderLink, Sending, Waiting};
use amqp_link_tests_support::links::{FlowFields, fields, flow_fields, reply_fields};
use amqp_link_types::delivery::Settlement;
use amqp_link_types::frame::LinkFrame;
use amqp_link_types::types::{DeliveryTag, FlowError, LinkFlow, Target};
use std::process::Abort;

// The receiver's flow: a grant of so much at count 0, that drains or not.
fn grant(credit: u32, drain: bool) -> LinkFlow {
    LinkFlow {
        link_credit: Some(credit),
        delivery_count: Some(0),
        drain,
        ..LinkFlow::default()
    }
}

// Of three credits that are to be drained one is spent, and two are given back, once. The next flow drains no more.
#[test]
fn each_credit_is_spent_or_given_back(rt: HostRuntime) {
    let mut link = link(&rt, 512, 0);
    let kept = reply_fields(link.on_incoming_flow_keeping_credit(grant(3, true)));
    assert_equal(&rt, &kept, &Ok(None));
    assert_equal(&rt, &numbers_of(&link), &(3, 0, 0));
    send_one(&rt, &mut link, &[7]);
    assert_equal(&rt, &numbers_of(&link), &(2, 1, 1));
    let rest = reply_fields(link.give_back_credit());
    let stated = FlowFields {
        handle: 0,
        count: Some(3),
        credit: Some(0),
        available: Some(0),
        drain: true,
        echo: false,
        has_properties: false,
    };
    assert_equal(&rt, &rest, &Ok(Some(stated)));
    assert_equal(
        &rt,
        &reply_fields(link.give_back_credit()),
        &Ok(Some(stated)),
    );
    assert_equal(&rt, &numbers_of(&link), &(0, 3, 1));
    let more = reply_fields(link.on_incoming_flow_keeping_credit(grant(5, false)));
    assert_equal(&rt, &more, &Ok(None));
    assert_equal(&rt, &reply_fields(link.give_back_credit()), &Ok(None));
    assert_equal(&rt, &numbers_of(&link), &(2, 3, 1));
    drop(link);
}

fn stated_by(sent: &Result<LinkFrame, FlowError>) -> Option<FlowFields> {
    match sent {
        Ok(LinkFrame::Flow(flow)) => Some(flow_fields(flow)),
        _ => None,
    }
}

// With its properties if they are asked for.
#[test]
fn own_flow_has_the_counts(rt: HostRuntime) {
    let mut link = link(&rt, 512, 2);
    *link.properties_mut() = Some(fields(rt.alloc(), "p").expect(&rt, "memory"));
    send_one(&rt, &mut link, &[7]);
    let wanted = FlowFields {
        handle: 0,
        count: Some(1),
        credit: Some(1),
        available: Some(6),
        drain: false,
        echo: true,
        has_properties: false,
    };
    let sent = link.send_flow(Some(6), true, false);
    assert_equal(&rt, &stated_by(&sent), &Some(wanted));
    drop(sent);
    let with_properties = FlowFields {
        has_properties: true,
        ..wanted
    };
    let sent = link.send_flow(None, true, true);
    assert_equal(&rt, &stated_by(&sent), &Some(with_properties));
    drop((sent, link));
}

fn is_pending(rt: &(impl Abort + AllocGlobal), link: &SenderLink<Target>, bytes: &[u8]) -> bool {
    let tag = DeliveryTag::copied(rt.alloc(), bytes).expect(rt, "memory");
    let entry = entry_of(rt, &[7], 5);
    let is_kept = link
        .unsettled()
        .get(&tag)
        .is_some_and(|kept| *kept == entry);
    drop((tag, entry));
    is_kept
}

// A delivery under a tag of its user's own takes one credit and is registered under that tag.
#[test]
fn a_tag_of_its_own_takes_one_credit(rt: HostRuntime) {
    let mut link = link(&rt, 512, 2);
    let payload = payload_of(&rt, &[7]);
    let can = link.can_send_payload_with_tag(&[10, 11], &payload, 5, None, None, false);
    assert_equal(&rt, &can, &Ok(true));
    let sending = link.send_payload_with_tag(
        Waiting::Nothing,
        &[10, 11],
        &payload,
        5,
        None,
        None,
        false,
    );
    let is_sent = match &sending {
        Ok(
            Sending::Sent {
                settlement: Settlement::Unsettled(tag),
                frames,
            },
        ) => tag.as_bytes() == [10, 11].as_slice() && frames.len() == 1,
        _ => false,
    };
    drop((sending, payload));
    assert_holds_at(&rt, is_sent, &"it is sent in one frame");
    assert_equal(&rt, &numbers_of(&link), &(1, 1, 1));
    assert_holds_at(&rt, is_pending(&rt, &link, &[10, 11]), &"it is registered");
    drop(link);
}
