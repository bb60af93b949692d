//! A delivery that is cut off twice, and whose outcome is stated by an attach; several that are disposed of at once.
use crate::script::Call::*;
use crate::script::Frame::*;
use crate::script::{LAST, MORE, Row, Seen, expect_script};
use amqp_link_inbox::{Arrival, DisposeError};

// The outcome that is kept while the link is not attached goes out with the attach: the peer settles the delivery, and
// states it no more.
pub(crate) const CUT_TWICE: [Row; 16] = [
    (Attach(&[]), Seen::Forgotten(0), 0, 0),
    (Grant(1), Seen::Done, 1, 0),
    (
        Come(First(0, 1), &[1, 2], MORE),
        Seen::Came(Arrival::Begun),
        0,
        1,
    ),
    (Cut, Seen::Done, 0, 1),
    (Attach(&[1]), Seen::Forgotten(0), 0, 1),
    (
        Come(Resumes(3, 1), &[3], MORE),
        Seen::Came(Arrival::Continued),
        0,
        1,
    ),
    (Cut, Seen::Done, 0, 1),
    (AttachInPart(&[]), Seen::Forgotten(0), 0, 1),
    (
        Come(Resumes(0, 1), &[4], LAST),
        Seen::Came(Arrival::Complete),
        0,
        1,
    ),
    (Take(1, &[1, 2, 3, 4]), Seen::Taken(true), 0, 1),
    (Cut, Seen::Done, 0, 1),
    (Keep(1), Seen::Done, 0, 1),
    (Attach(&[]), Seen::Forgotten(1), 0, 0),
    (Grant(1), Seen::Done, 1, 0),
    (
        Come(First(0, 1), &[5], LAST),
        Seen::Came(Arrival::Complete),
        0,
        1,
    ),
    (Take(1, &[5]), Seen::Taken(true), 0, 1),
];

// With one growth refused, whichever it is, the answers are those of a run where none is: by hand, with `rt try --test
// --fail-alloc N`.
#[test]
fn a_refused_growth_loses_nothing(rt: HostRuntime) {
    expect_script(&rt, CUT_TWICE.as_slice());
}

// The peer resumes the delivery three times: it sends again what had come but for its first byte, then all, then nothing of it.
pub(crate) const SENT_AGAIN: [Row; 13] = [
    (Attach(&[]), Seen::Forgotten(0), 0, 0),
    (Grant(1), Seen::Done, 1, 0),
    (
        Come(First(0, 1), &[1, 2, 3], MORE),
        Seen::Came(Arrival::Begun),
        0,
        1,
    ),
    (Cut, Seen::Done, 0, 1),
    (Attach(&[1]), Seen::Forgotten(0), 0, 1),
    (
        Come(ResumesAt(0, 1, 1), &[2, 3, 4], MORE),
        Seen::Came(Arrival::Continued),
        0,
        1,
    ),
    (Cut, Seen::Done, 0, 1),
    (Attach(&[1]), Seen::Forgotten(0), 0, 1),
    (
        Come(ResumesAt(0, 1, 0), &[1, 2, 3, 4], MORE),
        Seen::Came(Arrival::Continued),
        0,
        1,
    ),
    (Cut, Seen::Done, 0, 1),
    (Attach(&[1]), Seen::Forgotten(0), 0, 1),
    (
        Come(ResumesAt(0, 1, 4), &[5], LAST),
        Seen::Came(Arrival::Complete),
        0,
        1,
    ),
    (Take(1, &[1, 2, 3, 4, 5]), Seen::Taken(true), 0, 1),
];

#[test]
fn what_is_sent_again_is_held_once(rt: HostRuntime) {
    expect_script(&rt, SENT_AGAIN.as_slice());
}

// Three deliveries, of which the third is disposed of with the others once it was taken: by one disposition for ids that follow
// each other.
pub(crate) const THREE: [Row; 12] = [
    (Attach(&[]), Seen::Forgotten(0), 0, 0),
    (Grant(3), Seen::Done, 3, 0),
    (
        Come(First(4, 1), &[1], LAST),
        Seen::Came(Arrival::Complete),
        2,
        1,
    ),
    (
        Come(First(5, 2), &[2], LAST),
        Seen::Came(Arrival::Complete),
        1,
        2,
    ),
    (
        Come(First(6, 3), &[3], LAST),
        Seen::Came(Arrival::Complete),
        0,
        3,
    ),
    (Take(1, &[1]), Seen::Taken(true), 0, 3),
    (Take(2, &[2]), Seen::Taken(true), 0, 3),
    (
        AcceptAll(&[1, 3, 2]),
        Seen::NotDisposed(DisposeError::NotTaken),
        0,
        3,
    ),
    (Take(3, &[3]), Seen::Taken(true), 0, 3),
    (AcceptAll(&[1, 3, 2]), Seen::Frames(1), 0, 0),
    (AcceptAll(&[]), Seen::Frames(0), 0, 0),
    (Accept(1), Seen::NotDisposed(DisposeError::UnknownTag), 0, 0),
];

#[test]
fn several_are_disposed_of_at_once(rt: HostRuntime) {
    expect_script(&rt, THREE.as_slice());
}
