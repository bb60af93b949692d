//! The reply to a detach, and the outcomes of deliveries whose link is closed.
use super::{Shown, error, shown_by};
use crate::assertions::{assert_equal, assert_holds_at};
use crate::samples::count_tag;
use amqp_link_dispositions::closing::{all_closed, reply_to};
use amqp_link_types::delivery::{Outcomes, UnsettledMessage};
use amqp_link_types::types::{Detach, Handle, OutputHandle, Payload, UnsettledMap};
use std::process::Abort;

// A detach that closes the link with an error.
fn closing(rt: &(impl Abort + AllocGlobal), handle: u32) -> Detach {
    Detach {
        handle: Handle(handle),
        closed: true,
        error: Some(error(rt)),
    }
}

#[test]
fn reply_to_a_detach_has_its_error(rt: HostRuntime) {
    let came = closing(&rt, 9);
    let reply = reply_to(&came, OutputHandle(4)).expect(&rt, "memory");
    let wanted = closing(&rt, 4);
    let is_wanted = reply == wanted;
    drop((came, reply, wanted));
    assert_holds_at(&rt, is_wanted, &"closed with the error, at handle 4");
}

// Puts the entry of a delivery of one byte, of which no state is known.
fn put(rt: &(impl Abort + AllocGlobal), unsettled: &mut UnsettledMap<UnsettledMessage>, count: u8) {
    let payload = Payload::copy_from_slice(rt.alloc(), &[count]).expect(rt, "memory");
    let message = UnsettledMessage::new(payload, None, 0);
    drop(
        unsettled
            .put(count_tag(rt, count), message)
            .expect(rt, "memory"),
    );
}

// The outcomes as the link is closed with an error.
fn closed(
    rt: &(impl Abort + AllocGlobal),
    unsettled: &mut UnsettledMap<UnsettledMessage>,
) -> Outcomes {
    let cause = Some(error(rt));
    let outcomes = all_closed(rt.alloc(), unsettled, &cause);
    drop(cause);
    outcomes.expect(rt, "memory")
}

#[test]
fn deliveries_end_with_their_link(rt: HostRuntime) {
    let mut unsettled = UnsettledMap::new(rt.alloc());
    put(&rt, &mut unsettled, 1);
    put(&rt, &mut unsettled, 2);
    let outcomes = closed(&rt, &mut unsettled);
    let counts = (outcomes.len(), unsettled.len());
    let shown = (shown_by(outcomes.first()), shown_by(outcomes.get(1)));
    drop((outcomes, unsettled));
    assert_equal(&rt, &counts, &(2, 0));
    let wanted = (Shown::RemoteClosedWithError, Shown::RemoteClosedWithError);
    assert_equal(&rt, &shown, &wanted);
}
