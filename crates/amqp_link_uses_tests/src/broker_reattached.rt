//! A broker whose links lose their sessions, and are attached again.
use crate::script::Call::*;
use crate::script::Frame::*;
use crate::script::{LAST, Row, State, expect_after_sending, expect_script};
use crate::seen::{Seen, Why};
use amqp_link::inbox::Arrival;
use amqp_link::types::SenderSettleMode;

const COMPLETE: Seen = Seen::Came(Arrival::Complete);

const KNOWN: Seen = Seen::Came(Arrival::Known);

// The outcome returns while the session of the incoming link is lost.
const INCOMING_LOST: [Row; 7] = [
    (CutIncoming, Seen::Done, [0, 1, 0]),
    (
        Dispose(0, 0, true, State::Accepted),
        Seen::Origin(0, Some(5)),
        [0, 0, 1],
    ),
    (Settle(0, 5), Seen::Refused(Why::NotAttached), [0, 0, 1]),
    (AttachIncoming(&[5]), Seen::Forgotten(0), [0, 0, 1]),
    (Settle(0, 5), Seen::Refused(Why::NotResumed), [0, 0, 1]),
    (Come(Resumes(9, 5), &[], LAST), KNOWN, [0, 0, 1]),
    (Settle(0, 5), Seen::Settled(9, State::Accepted), [0, 0, 1]),
];

#[test]
fn an_outcome_waits_for_its_delivery_to_be_resumed(rt: HostRuntime) {
    expect_after_sending(&rt, INCOMING_LOST.as_slice());
}

// The receiver has two of the three bytes: the exchange is put back once, and then the last byte is sent.
const RESUMED: [Row; 11] = [
    (CutOutgoing, Seen::Done, [0, 1, 0]),
    (
        AttachOutgoing(0, &[(0, 2)]),
        Seen::Left(1, false),
        [0, 1, 0],
    ),
    (PutBackNext(0), Seen::PutBack, [0, 1, 0]),
    (PutBackNext(0), Seen::Nothing, [0, 1, 0]),
    (ResumeNext(0, &[]), Seen::Nothing, [0, 1, 0]),
    (CutOutgoing, Seen::Done, [0, 1, 0]),
    (
        AttachOutgoing(0, &[(0, 2)]),
        Seen::Left(1, false),
        [0, 1, 0],
    ),
    (ResumeNext(0, &[3]), Seen::Resumed(0, 1, true), [0, 1, 0]),
    (ResumeNext(0, &[]), Seen::Nothing, [0, 1, 0]),
    (
        Dispose(0, 0, true, State::Accepted),
        Seen::Origin(0, Some(5)),
        [0, 0, 1],
    ),
    (Settle(0, 5), Seen::Settled(7, State::Accepted), [0, 0, 1]),
];

#[test]
fn a_delivery_is_resumed_at_the_position_of_its_receiver(rt: HostRuntime) {
    expect_after_sending(&rt, RESUMED.as_slice());
}

// The receiver has nothing of the delivery. The link is lost again before it is sent again: the next attach is refused until it
// is put back, and another message waits until it is sent.
const SENT_AGAIN: [Row; 17] = [
    (Grant(0, 2), Seen::Credit(2), [0, 0, 0]),
    (Come(First(7, 5), &[1, 2, 3], LAST), COMPLETE, [0, 0, 0]),
    (Come(First(8, 6), &[4], LAST), COMPLETE, [0, 0, 0]),
    (Take(0, 5), Seen::Done, [1, 0, 0]),
    (Take(0, 6), Seen::Done, [2, 0, 0]),
    (Flow(2), Seen::Done, [2, 0, 0]),
    (SendNext(0, &[1, 2, 3]), Seen::Sent(0, 1, true), [1, 1, 0]),
    (CutOutgoing, Seen::Done, [1, 1, 0]),
    (AttachOutgoing(0, &[]), Seen::Left(1, false), [1, 1, 0]),
    (CutOutgoing, Seen::Done, [1, 1, 0]),
    (
        AttachOutgoing(0, &[]),
        Seen::Refused(Why::StillResuming),
        [1, 1, 0],
    ),
    (PutBackNext(0), Seen::PutBack, [1, 1, 0]),
    (CutOutgoing, Seen::Done, [1, 1, 0]),
    (AttachOutgoing(0, &[]), Seen::Left(1, false), [1, 1, 0]),
    (
        SendNext(0, &[4]),
        Seen::Refused(Why::StillResuming),
        [1, 1, 0],
    ),
    (ResumeNext(0, &[1, 2, 3]), Seen::Sent(0, 1, true), [1, 1, 0]),
    (
        Dispose(0, 0, true, State::Accepted),
        Seen::Origin(0, Some(5)),
        [1, 0, 1],
    ),
];

#[test]
fn a_delivery_of_which_nothing_came_is_sent_again(rt: HostRuntime) {
    expect_script(&rt, 2, SenderSettleMode::Unsettled, SENT_AGAIN.as_slice());
}

// The receiver has a byte of a delivery of which the broker knows nothing: it is put back once, and listed again.
const ABORTED: [Row; 8] = [
    (CutOutgoing, Seen::Done, [0, 0, 1]),
    (
        AttachOutgoing(0, &[(9, 1)]),
        Seen::Left(1, false),
        [0, 0, 1],
    ),
    (PutBackNext(0), Seen::Ended, [0, 0, 1]),
    (ResumeNext(0, &[]), Seen::Nothing, [0, 0, 1]),
    (CutOutgoing, Seen::Done, [0, 0, 1]),
    (
        AttachOutgoing(0, &[(9, 1)]),
        Seen::Left(1, false),
        [0, 0, 1],
    ),
    (ResumeNext(0, &[]), Seen::Aborted(9), [0, 0, 1]),
    (ResumeNext(0, &[]), Seen::Nothing, [0, 0, 1]),
];

#[test]
fn a_delivery_that_is_not_known_is_aborted(rt: HostRuntime) {
    expect_script(&rt, 1, SenderSettleMode::Unsettled, ABORTED.as_slice());
}

// The receiver's attach does not state all deliveries: it may have a part of this one, which stays for the next attach.
const INCOMPLETE: [Row; 8] = [
    (CutOutgoing, Seen::Done, [0, 1, 0]),
    (AttachIncomplete(0, &[]), Seen::Left(1, true), [0, 1, 0]),
    (ResumeNext(0, &[]), Seen::PutBack, [0, 1, 0]),
    (ResumeNext(0, &[]), Seen::Nothing, [0, 1, 0]),
    (CutOutgoing, Seen::Done, [0, 1, 0]),
    (
        AttachOutgoing(0, &[(0, 1)]),
        Seen::Left(1, false),
        [0, 1, 0],
    ),
    (ResumeNext(0, &[2, 3]), Seen::Resumed(0, 1, true), [0, 1, 0]),
    (ResumeNext(0, &[]), Seen::Nothing, [0, 1, 0]),
];

#[test]
fn an_incomplete_exchange_sends_nothing_whole(rt: HostRuntime) {
    expect_after_sending(&rt, INCOMPLETE.as_slice());
}
