//! What a receiver that is put together from parts does wrong, each by a name, and what an inbox does.
use crate::script::Call::*;
use crate::script::Frame::*;
use crate::script::{LAST, MORE, Row, Seen, Untaken, expect_script};
use amqp_link_inbox::{Arrival, DisposeError, Stage};

const BEGUN: Seen = Seen::Came(Arrival::Begun);

const CONTINUED: Seen = Seen::Came(Arrival::Continued);

const COMPLETE: Seen = Seen::Came(Arrival::Complete);

const SETTLED: Seen = Seen::Came(Arrival::CompleteSettled);

const KNOWN: Seen = Seen::Came(Arrival::Known);

const IGNORED: Seen = Seen::Came(Arrival::Ignored);

const ABORTED: Seen = Seen::Came(Arrival::Aborted(Some(Stage::Begun)));

const ALREADY: Seen = Seen::NotTaken(Untaken::Already);

const UNKNOWN: Seen = Seen::NotTaken(Untaken::Unknown);

// Of three frames one has arrived; the peer sends the other two with the tag and a new id.
const REST_OF_TWO: [Row; 9] = [
    (Attach(&[]), Seen::Forgotten(0), 0, 0),
    (Grant(2), Seen::Done, 2, 0),
    (Come(First(0, 1), &[1, 2], MORE), BEGUN, 1, 1),
    (Cut, Seen::Done, 1, 1),
    (Attach(&[1]), Seen::Forgotten(0), 1, 1),
    (Come(Resumes(7, 1), &[3], MORE), CONTINUED, 1, 1),
    (Come(Further, &[4, 5], LAST), COMPLETE, 1, 1),
    (Take(1, &[1, 2, 3, 4, 5]), Seen::Taken(true), 1, 1),
    (Accept(1), Seen::Sent(Some(7)), 1, 0),
];

#[test]
fn a_resumed_rest_of_two_frames_is_not_refused(rt: HostRuntime) {
    expect_script(&rt, REST_OF_TWO.as_slice());
}

// A delivery was taken, and its sender, which has no outcome of it, resumes it with no bytes: by one frame, then by
// two. With bytes it is refused.
const TAKEN: [Row; 16] = [
    (Attach(&[]), Seen::Forgotten(0), 0, 0),
    (Grant(2), Seen::Done, 2, 0),
    (Come(First(0, 1), &[1, 2], LAST), COMPLETE, 1, 1),
    (Take(1, &[1, 2]), Seen::Taken(true), 1, 1),
    (Take(1, &[1, 2]), ALREADY, 1, 1),
    (Cut, Seen::Done, 1, 1),
    (
        Accept(1),
        Seen::NotDisposed(DisposeError::NotAttached),
        1,
        1,
    ),
    (Attach(&[1]), Seen::Forgotten(0), 1, 1),
    (Accept(1), Seen::NotDisposed(DisposeError::NotResumed), 1, 1),
    (Come(Resumes(4, 1), &[9], LAST), Seen::Refused, 1, 1),
    (Come(Resumes(4, 1), &[], MORE), KNOWN, 1, 1),
    (Come(Further, &[9], LAST), Seen::Refused, 1, 1),
    (Come(Further, &[], LAST), KNOWN, 1, 1),
    (Take(1, &[]), ALREADY, 1, 1),
    (Accept(1), Seen::Sent(Some(4)), 1, 0),
    (Take(1, &[]), UNKNOWN, 1, 0),
];

#[test]
fn a_delivery_is_not_taken_twice(rt: HostRuntime) {
    expect_script(&rt, TAKEN.as_slice());
}

// Deliveries that are settled by their only frame, by a later one, and by a later one of a resumption.
const SETTLING: [Row; 13] = [
    (Attach(&[]), Seen::Forgotten(0), 0, 0),
    (Grant(3), Seen::Done, 3, 0),
    (Come(FirstSettled(0, 1), &[1], LAST), SETTLED, 2, 0),
    (Come(First(1, 1), &[2], MORE), BEGUN, 1, 1),
    (Come(Settles, &[3], LAST), SETTLED, 1, 0),
    (Come(First(2, 1), &[4], MORE), BEGUN, 0, 1),
    (Cut, Seen::Done, 0, 1),
    (Attach(&[1]), Seen::Forgotten(0), 0, 1),
    (Come(Resumes(0, 1), &[5], MORE), CONTINUED, 0, 1),
    (Come(Settles, &[6], LAST), SETTLED, 0, 0),
    (TakeSettled(&[1]), Seen::Taken(true), 0, 0),
    (TakeSettled(&[2, 3]), Seen::Taken(true), 0, 0),
    (TakeSettled(&[4, 5, 6]), Seen::Taken(true), 0, 0),
];

#[test]
fn a_settled_delivery_leaves_no_entry(rt: HostRuntime) {
    expect_script(&rt, SETTLING.as_slice());
}

// A peer uses the tag of a delivery that was cut off for another one. Of one that it has forgotten nothing stays, and what
// resumes it all the same is ignored.
const SAME_TAG: [Row; 13] = [
    (Attach(&[]), Seen::Forgotten(0), 0, 0),
    (Grant(3), Seen::Done, 3, 0),
    (Come(First(0, 1), &[1, 2], MORE), BEGUN, 2, 1),
    (Cut, Seen::Done, 2, 1),
    (AttachInPart(&[]), Seen::Forgotten(0), 2, 1),
    (
        Come(First(0, 1), &[7], LAST),
        Seen::Replaced(Stage::Begun),
        1,
        1,
    ),
    (Take(1, &[7]), Seen::Taken(true), 1, 1),
    (Accept(1), Seen::Sent(Some(0)), 1, 0),
    (Come(First(1, 2), &[1, 2], MORE), BEGUN, 0, 1),
    (Cut, Seen::Done, 0, 1),
    (Attach(&[]), Seen::Forgotten(1), 0, 0),
    (Come(Resumes(0, 2), &[3], LAST), IGNORED, 0, 0),
    (Take(2, &[3]), UNKNOWN, 0, 0),
];

#[test]
fn bytes_of_two_deliveries_are_not_joined(rt: HostRuntime) {
    expect_script(&rt, SAME_TAG.as_slice());
}

// A window of two: a delivery that is resumed takes none of it, and one that is aborted in mid-delivery the one that it
// has begun with.
const CREDIT: [Row; 13] = [
    (Attach(&[]), Seen::Forgotten(0), 0, 0),
    (Grant(2), Seen::Done, 2, 0),
    (Come(First(0, 1), &[1], MORE), BEGUN, 1, 1),
    (Cut, Seen::Done, 1, 1),
    (Attach(&[1]), Seen::Forgotten(0), 1, 1),
    (Grant(2), Seen::Done, 2, 1),
    (Come(Resumes(0, 1), &[2], LAST), COMPLETE, 2, 1),
    (Take(1, &[1, 2]), Seen::Taken(true), 2, 1),
    (Come(First(1, 2), &[1], MORE), BEGUN, 1, 2),
    (Come(Aborts, &[], LAST), ABORTED, 1, 1),
    (Come(First(2, 3), &[1], LAST), COMPLETE, 0, 2),
    (Come(First(3, 4), &[1], LAST), Seen::Uncredited, 0, 3),
    (Grant(2), Seen::Done, 2, 3),
];

// A delivery that is aborted in the attachment after the one in which it has begun: it takes none of the new window.
const ABORTED_LATER: [Row; 9] = [
    (Attach(&[]), Seen::Forgotten(0), 0, 0),
    (Grant(2), Seen::Done, 2, 0),
    (Come(First(0, 1), &[1], MORE), BEGUN, 1, 1),
    (Cut, Seen::Done, 1, 1),
    (Attach(&[1]), Seen::Forgotten(0), 1, 1),
    (Grant(2), Seen::Done, 2, 1),
    (Come(AbortsFirst(0, 1), &[], LAST), ABORTED, 2, 0),
    (Come(First(1, 1), &[2], LAST), COMPLETE, 1, 1),
    (Take(1, &[2]), Seen::Taken(true), 1, 1),
];

#[test]
fn credit_does_not_drift(rt: HostRuntime) {
    expect_script(&rt, CREDIT.as_slice());
    expect_script(&rt, ABORTED_LATER.as_slice());
}
