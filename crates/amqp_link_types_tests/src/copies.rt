//! Copies, while there is memory.
use crate::assertions::assert_holds_at;
use crate::samples::{attach, boxed, error, fields, tag};
use amqp_link_types::delivery::{DeliveryOutcome, copy_of_outcome};
use amqp_link_types::frame::continuation_of;
use amqp_link_types::types::{
    ConnectionStopReason, DeliveryState, DeliveryTag, Detach, Disposition, Fields, Handle,
    LinkFlow, LinkStateError, Outcome, Role, SessionStopReason, Source, Target, Transfer,
};
use amqp_link_values::copy::copies_of;
use std::process::Abort;

// Whether a copy is equal to its original.
fn is_copied<T: Clone + PartialEq + Drop>(rt: &impl Abort, original: T) -> bool {
    let copy = original.clone().expect(rt, "memory");
    let is_equal = copy == original;
    drop((copy, original));
    is_equal
}

fn rejected(rt: &(impl Abort + AllocGlobal)) -> DeliveryState {
    DeliveryState::Rejected {
        error: Some(boxed(rt, error(rt))),
    }
}

fn transfer(rt: &(impl Abort + AllocGlobal)) -> Transfer {
    Transfer {
        delivery_tag: Some(tag(rt, 1)),
        state: Some(rejected(rt)),
        ..Transfer::default()
    }
}

fn flow(rt: &(impl Abort + AllocGlobal)) -> LinkFlow {
    LinkFlow {
        handle: Handle(1),
        delivery_count: Some(2),
        link_credit: Some(3),
        available: Some(4),
        drain: true,
        echo: true,
        properties: Some(fields(rt, 5)),
    }
}

fn disposition(rt: &(impl Abort + AllocGlobal)) -> Disposition {
    Disposition {
        role: Role::Receiver,
        first: 1,
        last: Some(2),
        settled: true,
        state: Some(rejected(rt)),
        batchable: true,
    }
}

fn detach(rt: &(impl Abort + AllocGlobal)) -> Detach {
    Detach {
        handle: Handle(1),
        closed: true,
        error: Some(error(rt)),
    }
}

#[test]
fn copied_performatives_are_equal(rt: HostRuntime) {
    assert_holds_at(&rt, is_copied(&rt, attach(&rt)), &"an attach");
    assert_holds_at(&rt, is_copied(&rt, flow(&rt)), &"a flow");
    assert_holds_at(&rt, is_copied(&rt, transfer(&rt)), &"a transfer");
    assert_holds_at(&rt, is_copied(&rt, disposition(&rt)), &"a disposition");
    assert_holds_at(&rt, is_copied(&rt, detach(&rt)), &"a detach");
}

// A session stopped with its connection, which was closed with an error.
fn stopped(rt: &(impl Abort + AllocGlobal)) -> LinkStateError {
    let closed = ConnectionStopReason::RemoteClosedWithError(error(rt));
    LinkStateError::SessionStopped(SessionStopReason::ConnectionStopped(closed))
}

fn closed(rt: &(impl Abort + AllocGlobal)) -> LinkStateError {
    LinkStateError::RemoteClosedWithError(error(rt))
}

// Whether the copy of what became of a delivery is equal to it.
fn is_outcome_copied(rt: &impl Abort, original: DeliveryOutcome) -> bool {
    let copy = copy_of_outcome(&original).expect(rt, "memory");
    let is_equal = copy == original;
    drop((copy, original));
    is_equal
}

// Whether the copies of two parts that may be absent are equal to them.
fn are_both_copied(rt: &impl Abort, tag: Option<DeliveryTag>, fields: Option<Fields>) -> bool {
    let copies = copies_of(&tag, &fields).expect(rt, "memory");
    let are_equal = copies.0 == tag && copies.1 == fields;
    drop((copies, tag, fields));
    are_equal
}

// Whether the further transfers of a delivery have its state, and not its tag.
fn is_continued(rt: &impl Abort, first: Transfer) -> bool {
    let further = continuation_of(&first).expect(rt, "memory");
    let is_continued = further.state == first.state && further.delivery_tag.is_none();
    drop((further, first));
    is_continued
}

#[test]
fn further_transfers_have_the_state(rt: HostRuntime) {
    assert_holds_at(&rt, is_continued(&rt, transfer(&rt)), &"a rejection");
}

#[test]
fn copied_parts_are_equal(rt: HostRuntime) {
    let are_both = are_both_copied(&rt, Some(tag(&rt, 1)), Some(fields(&rt, 5)));
    assert_holds_at(&rt, are_both, &"a tag and fields");
}

#[test]
fn copied_outcomes_are_equal(rt: HostRuntime) {
    assert_holds_at(&rt, is_copied(&rt, stopped(&rt)), &"a stop");
    assert_holds_at(&rt, is_copied(&rt, closed(&rt)), &"closed with an error");
    let outcome = Ok(Some(rejected(&rt)));
    assert_holds_at(&rt, is_outcome_copied(&rt, outcome), &"an outcome");
}

fn is_error_copied(rt: &impl Abort, error: LinkStateError, name: &str) {
    assert_holds_at(rt, is_copied(rt, error), &name);
}

// The copies from here on take no memory, so none is refused.
#[test]
fn copied_errors_without_more_are_equal(rt: HostRuntime) {
    is_error_copied(&rt, LinkStateError::IllegalState, "illegal state");
    is_error_copied(&rt, LinkStateError::RemoteDetached, "detached");
    is_error_copied(&rt, LinkStateError::RemoteClosed, "closed");
    is_error_copied(
        &rt,
        LinkStateError::ExpectImmediateDetach,
        "detach expected",
    );
    is_error_copied(&rt, LinkStateError::TagPending, "tag pending");
    is_error_copied(&rt, LinkStateError::NoRoom, "no room");
    is_error_copied(&rt, LinkStateError::OutOfMemory, "out of memory");
    let ended = LinkStateError::SessionStopped(SessionStopReason::Ended);
    is_error_copied(&rt, ended, "session ended");
    let stopped = SessionStopReason::ConnectionStopped(ConnectionStopReason::Closed);
    is_error_copied(
        &rt,
        LinkStateError::SessionStopped(stopped),
        "connection closed",
    );
}

fn modified() -> Outcome {
    Outcome::Modified {
        delivery_failed: Some(true),
        undeliverable_here: Some(false),
        message_annotations: None,
    }
}

#[test]
fn copied_outcomes_without_more_are_equal(rt: HostRuntime) {
    assert_holds_at(&rt, is_copied(&rt, Outcome::Accepted), &"accepted");
    assert_holds_at(&rt, is_copied(&rt, Outcome::Released), &"released");
    assert_holds_at(
        &rt,
        is_copied(&rt, Outcome::Rejected { error: None }),
        &"rejected",
    );
    assert_holds_at(&rt, is_copied(&rt, modified()), &"modified");
}

fn bare_disposition() -> Disposition {
    Disposition {
        role: Role::Sender,
        first: 1,
        last: None,
        settled: false,
        state: None,
        batchable: false,
    }
}

fn bare_detach() -> Detach {
    Detach {
        handle: Handle(1),
        closed: false,
        error: None,
    }
}

#[test]
fn copied_performatives_without_more_are_equal(rt: HostRuntime) {
    assert_holds_at(&rt, is_copied(&rt, LinkFlow::default()), &"a flow");
    assert_holds_at(&rt, is_copied(&rt, Transfer::default()), &"a transfer");
    assert_holds_at(&rt, is_copied(&rt, bare_disposition()), &"a disposition");
    assert_holds_at(&rt, is_copied(&rt, bare_detach()), &"a detach");
    assert_holds_at(&rt, is_copied(&rt, Source::default()), &"a source");
    assert_holds_at(&rt, is_copied(&rt, Target::default()), &"a target");
}
