//! A broker's core: what each call returns, and how many messages are queued, are under way and may still come after it.
use crate::script::Call::*;
use crate::script::Frame::*;
use crate::script::{LAST, MORE, Row, State, expect_after_sending, expect_script};
use crate::seen::{Seen, Why};
use amqp_link::inbox::Arrival;
use amqp_link::types::SenderSettleMode;

const BEGUN: Seen = Seen::Came(Arrival::Begun);

const COMPLETE: Seen = Seen::Came(Arrival::Complete);

const COMPLETE_SETTLED: Seen = Seen::Came(Arrival::CompleteSettled);

const NO_ROOM: Seen = Seen::Refused(Why::NoRoom);

const NO_OUTCOME: Seen = Seen::Refused(Why::NoOutcome);

const NO_SUCH_LINK: Seen = Seen::Refused(Why::NoSuchLink);

// A message of fifty bytes, which arrives in two transfers and is sent on in two frames of at most 64 bytes.
const BYTES: [u8; 50] = [
    0, 1, 2, 3, 4, 5, 6, 7, 8, 9, 10, 11, 12, 13, 14, 15, 16, 17, 18, 19, 20, 21, 22, 23, 24, 25,
    26, 27, 28, 29, 30, 31, 32, 33, 34, 35, 36, 37, 38, 39, 40, 41, 42, 43, 44, 45, 46, 47, 48, 49,
];

const FRONT: [u8; 5] = [0, 1, 2, 3, 4];

const REST: [u8; 45] = [
    5, 6, 7, 8, 9, 10, 11, 12, 13, 14, 15, 16, 17, 18, 19, 20, 21, 22, 23, 24, 25, 26, 27, 28, 29,
    30, 31, 32, 33, 34, 35, 36, 37, 38, 39, 40, 41, 42, 43, 44, 45, 46, 47, 48, 49,
];

const WHOLE_WAY: [Row; 8] = [
    (Grant(0, 1), Seen::Credit(1), [0, 0, 1]),
    (Come(First(7, 5), &FRONT, MORE), BEGUN, [0, 0, 1]),
    (Come(Further, &REST, LAST), COMPLETE, [0, 0, 1]),
    (Take(0, 5), Seen::Done, [1, 0, 1]),
    (Flow(1), Seen::Done, [1, 0, 1]),
    (SendNext(0, &BYTES), Seen::Sent(0, 2, true), [0, 1, 1]),
    (
        Dispose(0, 0, true, State::Accepted),
        Seen::Origin(0, Some(5)),
        [0, 0, 2],
    ),
    (Settle(0, 5), Seen::Settled(7, State::Accepted), [0, 0, 2]),
];

#[test]
fn a_message_is_sent_on_and_settled(rt: HostRuntime) {
    expect_script(&rt, 2, SenderSettleMode::Unsettled, WHOLE_WAY.as_slice());
}

const CREDIT: [Row; 12] = [
    (SendNext(0, &[]), Seen::Nothing, [0, 0, 2]),
    (Grant(0, 2), Seen::Credit(2), [0, 0, 0]),
    (Come(First(0, 1), &[1], LAST), COMPLETE, [0, 0, 0]),
    (Come(First(1, 2), &[2], LAST), COMPLETE, [0, 0, 0]),
    (Take(0, 1), Seen::Done, [1, 0, 0]),
    (Take(0, 2), Seen::Done, [2, 0, 0]),
    (SendNext(0, &[]), Seen::CreditMissing, [2, 0, 0]),
    (Flow(1), Seen::Done, [2, 0, 0]),
    (SendNext(0, &[1]), Seen::Sent(0, 1, true), [1, 1, 0]),
    (SendNext(0, &[]), Seen::CreditMissing, [1, 1, 0]),
    (Flow(2), Seen::Done, [1, 1, 0]),
    (SendNext(0, &[2]), Seen::Sent(1, 1, true), [0, 2, 0]),
];

#[test]
fn without_credit_a_message_stays_the_first(rt: HostRuntime) {
    expect_script(&rt, 2, SenderSettleMode::Unsettled, CREDIT.as_slice());
}

// The third delivery is one that its sender had no credit for.
const ROOM: [Row; 20] = [
    (Grant(0, 3), NO_ROOM, [0, 0, 2]),
    (Grant(0, 2), Seen::Credit(2), [0, 0, 0]),
    (Grant(0, 1), NO_ROOM, [0, 0, 0]),
    (Come(First(0, 1), &[1], LAST), COMPLETE, [0, 0, 0]),
    (
        Come(FirstSettled(1, 2), &[2], LAST),
        COMPLETE_SETTLED,
        [0, 0, 0],
    ),
    (Come(First(2, 3), &[3], LAST), COMPLETE, [0, 0, 0]),
    (Take(0, 1), Seen::Done, [1, 0, 0]),
    (TakeSettled(0), Seen::Done, [2, 0, 0]),
    (Take(0, 3), NO_ROOM, [2, 0, 0]),
    (TakeSettled(0), NO_ROOM, [2, 0, 0]),
    (Flow(3), Seen::Done, [2, 0, 0]),
    (SendNext(0, &[1]), Seen::Sent(0, 1, true), [1, 1, 0]),
    (Take(0, 3), NO_ROOM, [1, 1, 0]),
    (
        Dispose(0, 0, true, State::Accepted),
        Seen::Origin(0, Some(1)),
        [1, 0, 0],
    ),
    (Take(0, 3), Seen::Done, [2, 0, 0]),
    (SendNext(0, &[2]), Seen::Sent(1, 1, true), [1, 1, 0]),
    (SendNext(0, &[3]), Seen::Sent(2, 1, true), [0, 2, 0]),
    (
        Dispose(0, 1, true, State::Accepted),
        Seen::Origin(0, None),
        [0, 1, 1],
    ),
    (Grant(0, 1), Seen::Credit(1), [0, 1, 0]),
    (
        Dispose(0, 2, true, State::Accepted),
        Seen::Origin(0, Some(3)),
        [0, 0, 1],
    ),
];

#[test]
fn no_more_messages_come_than_there_is_room_for(rt: HostRuntime) {
    expect_script(&rt, 2, SenderSettleMode::Unsettled, ROOM.as_slice());
}

// A settled delivery, and then one of the same tag that is not settled: what its receiver says of the first changes nothing
// of the second.
const SETTLED: [Row; 13] = [
    (Grant(0, 2), Seen::Credit(2), [0, 0, 1]),
    (
        Come(FirstSettled(0, 1), &[1], LAST),
        COMPLETE_SETTLED,
        [0, 0, 1],
    ),
    (Come(First(1, 1), &[2], LAST), COMPLETE, [0, 0, 1]),
    (TakeSettled(0), Seen::Done, [1, 0, 1]),
    (TakeSettled(0), Seen::Nothing, [1, 0, 1]),
    (Take(0, 1), Seen::Done, [2, 0, 1]),
    (Flow(2), Seen::Done, [2, 0, 1]),
    (SendNext(0, &[1]), Seen::Sent(0, 1, true), [1, 1, 1]),
    (SendNext(0, &[2]), Seen::Sent(1, 1, true), [0, 2, 1]),
    (
        Dispose(0, 0, true, State::Rejected),
        Seen::Origin(0, None),
        [0, 1, 2],
    ),
    (Settle(0, 1), NO_OUTCOME, [0, 1, 2]),
    (
        Dispose(0, 1, true, State::Accepted),
        Seen::Origin(0, Some(1)),
        [0, 0, 3],
    ),
    (Settle(0, 1), Seen::Settled(1, State::Accepted), [0, 0, 3]),
];

#[test]
fn a_settled_message_gets_no_outcome(rt: HostRuntime) {
    expect_script(&rt, 3, SenderSettleMode::Unsettled, SETTLED.as_slice());
}

const DONE_AT_ONCE: [Row; 7] = [
    (Grant(0, 1), Seen::Credit(1), [0, 0, 0]),
    (Come(First(7, 5), &[1], LAST), COMPLETE, [0, 0, 0]),
    (Take(0, 5), Seen::Done, [1, 0, 0]),
    (Settle(0, 5), NO_OUTCOME, [1, 0, 0]),
    (Flow(1), Seen::Done, [1, 0, 0]),
    (SendNext(0, &[1]), Seen::Accepted, [0, 0, 1]),
    (Settle(0, 5), Seen::Settled(7, State::Accepted), [0, 0, 1]),
];

#[test]
fn a_message_that_is_sent_settled_is_accepted(rt: HostRuntime) {
    expect_script(&rt, 1, SenderSettleMode::Settled, DONE_AT_ONCE.as_slice());
}

// A disposition ends a delivery by its settled flag or by a terminal state. One that has neither ends nothing, nor does one of
// a tag that is not under way.
const OUTCOMES: [Row; 21] = [
    (Grant(0, 3), Seen::Credit(3), [0, 0, 0]),
    (Come(First(0, 1), &[1], LAST), COMPLETE, [0, 0, 0]),
    (Come(First(1, 2), &[2], LAST), COMPLETE, [0, 0, 0]),
    (Come(First(2, 3), &[3], LAST), COMPLETE, [0, 0, 0]),
    (Take(0, 1), Seen::Done, [1, 0, 0]),
    (Take(0, 2), Seen::Done, [2, 0, 0]),
    (Take(0, 3), Seen::Done, [3, 0, 0]),
    (Flow(3), Seen::Done, [3, 0, 0]),
    (SendNext(0, &[1]), Seen::Sent(0, 1, true), [2, 1, 0]),
    (SendNext(0, &[2]), Seen::Sent(1, 1, true), [1, 2, 0]),
    (SendNext(0, &[3]), Seen::Sent(2, 1, true), [0, 3, 0]),
    (
        Dispose(0, 0, false, State::Silent),
        Seen::Nothing,
        [0, 3, 0],
    ),
    (
        Dispose(0, 0, false, State::Received),
        Seen::Nothing,
        [0, 3, 0],
    ),
    (
        Dispose(0, 9, true, State::Accepted),
        Seen::Nothing,
        [0, 3, 0],
    ),
    (
        Dispose(0, 0, true, State::Accepted),
        Seen::Origin(0, Some(1)),
        [0, 2, 1],
    ),
    (
        Dispose(0, 1, false, State::Rejected),
        Seen::Origin(0, Some(2)),
        [0, 1, 2],
    ),
    (
        Dispose(0, 2, true, State::Silent),
        Seen::Origin(0, Some(3)),
        [0, 0, 3],
    ),
    (Settle(0, 1), Seen::Settled(0, State::Accepted), [0, 0, 3]),
    (Settle(0, 2), Seen::Settled(1, State::Rejected), [0, 0, 3]),
    (Settle(0, 3), Seen::Settled(2, State::Released), [0, 0, 3]),
    (Settle(0, 3), NO_OUTCOME, [0, 0, 3]),
];

#[test]
fn a_delivery_is_settled_by_the_outcome_that_returned(rt: HostRuntime) {
    expect_script(&rt, 3, SenderSettleMode::Unsettled, OUTCOMES.as_slice());
}

const ELSEWHERE: [Row; 9] = [
    (Grant(1, 1), NO_SUCH_LINK, [0, 0, 1]),
    (Take(1, 5), NO_SUCH_LINK, [0, 0, 1]),
    (TakeSettled(1), NO_SUCH_LINK, [0, 0, 1]),
    (Settle(1, 5), NO_SUCH_LINK, [0, 0, 1]),
    (SendNext(1, &[]), NO_SUCH_LINK, [0, 0, 1]),
    (AttachOutgoing(1, &[]), NO_SUCH_LINK, [0, 0, 1]),
    (ResumeNext(1, &[]), NO_SUCH_LINK, [0, 0, 1]),
    (PutBackNext(1), NO_SUCH_LINK, [0, 0, 1]),
    (
        Dispose(1, 0, true, State::Accepted),
        NO_SUCH_LINK,
        [0, 0, 1],
    ),
];

#[test]
fn each_call_names_a_link_that_there_is(rt: HostRuntime) {
    expect_script(&rt, 1, SenderSettleMode::Unsettled, ELSEWHERE.as_slice());
}

// The sender forgets its delivery while the message is under way, and begins another of the same tag: what the receiver says of
// the first message changes nothing of the second.
const OWN_MESSAGE: [Row; 15] = [
    (Grant(0, 1), Seen::Credit(1), [0, 0, 2]),
    (Come(First(0, 1), &[1], LAST), COMPLETE, [0, 0, 2]),
    (Take(0, 1), Seen::Done, [1, 0, 2]),
    (Flow(2), Seen::Done, [1, 0, 2]),
    (SendNext(0, &[1]), Seen::Sent(0, 1, true), [0, 1, 2]),
    (CutIncoming, Seen::Done, [0, 1, 2]),
    (AttachIncoming(&[]), Seen::Forgotten(1), [0, 1, 2]),
    (Grant(0, 1), Seen::Credit(1), [0, 1, 1]),
    (Come(First(0, 1), &[2], LAST), COMPLETE, [0, 1, 1]),
    (Take(0, 1), Seen::Done, [1, 1, 1]),
    (
        Dispose(0, 0, true, State::Accepted),
        Seen::Origin(0, Some(1)),
        [1, 0, 2],
    ),
    (Settle(0, 1), NO_OUTCOME, [1, 0, 2]),
    (SendNext(0, &[2]), Seen::Sent(1, 1, true), [0, 1, 2]),
    (
        Dispose(0, 1, true, State::Rejected),
        Seen::Origin(0, Some(1)),
        [0, 0, 3],
    ),
    (Settle(0, 1), Seen::Settled(0, State::Rejected), [0, 0, 3]),
];

#[test]
fn an_outcome_is_that_of_its_own_message(rt: HostRuntime) {
    expect_script(&rt, 3, SenderSettleMode::Unsettled, OWN_MESSAGE.as_slice());
}

// The receiver settles the delivery and states only how far it came: its message is released. What the sender states of its
// delivery then changes nothing of that; once the sender has forgotten it, nothing of it is left.
const RELEASED: [Row; 6] = [
    (
        Dispose(0, 0, true, State::Received),
        Seen::Origin(0, Some(5)),
        [0, 0, 1],
    ),
    (SenderStates(5), Seen::Done, [0, 0, 1]),
    (Settle(0, 5), Seen::Settled(7, State::Released), [0, 0, 1]),
    (Settle(0, 5), NO_OUTCOME, [0, 0, 1]),
    (CutIncoming, Seen::Done, [0, 0, 1]),
    (AttachIncoming(&[]), Seen::Forgotten(0), [0, 0, 1]),
];

#[test]
fn a_message_without_an_outcome_is_released(rt: HostRuntime) {
    expect_after_sending(&rt, RELEASED.as_slice());
}

const FORGOTTEN: [Row; 5] = [
    (CutIncoming, Seen::Done, [0, 1, 0]),
    (AttachIncoming(&[]), Seen::Forgotten(1), [0, 1, 0]),
    (
        Dispose(0, 0, true, State::Accepted),
        Seen::Origin(0, Some(5)),
        [0, 0, 1],
    ),
    (Settle(0, 5), Seen::Refused(Why::UnknownTag), [0, 0, 1]),
    (Settle(0, 5), NO_OUTCOME, [0, 0, 1]),
];

#[test]
fn an_outcome_of_a_forgotten_delivery_is_dropped(rt: HostRuntime) {
    expect_after_sending(&rt, FORGOTTEN.as_slice());
}
