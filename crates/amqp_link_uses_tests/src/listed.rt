//! The deliveries that an exchange lists, one call for each.
use crate::assertions::assert_equal_at;
use crate::samples::{attached_sender, payload, tag_of};
use crate::script::State;
use crate::seen::{Seen, Why, stepped};
use amqp_link::delivery::UnsettledMessage;
use amqp_link::errors::LinkStateError;
use amqp_link::resumption::{ResumingDelivery, Step, put_back_next, resume_next};
use amqp_link::types::Target;
use amqp_link::{DeliveryState, DeliveryTag, LinkExt, OutcomeLedger};
use amqp_link_tests_support::calls::lose_session;
use std::collections::VecDeque;
use std::process::Abort;

type Ledger = OutcomeLedger<Target>;

type List = VecDeque<(DeliveryTag, ResumingDelivery)>;

#[derive(Clone, Copy, Debug)]
enum Call {
    /// The bytes that are sent are to be these.
    ResumeNext(&'static [u8]),
    PutBackNext,
}

// A call and what it returns; then how many deliveries are listed, and how many are pending.
type Row = (Call, Seen, [usize; 2]);

fn new_ledger(rt: &(impl Abort + AllocGlobal)) -> Ledger {
    let ledger = OutcomeLedger::new(rt.alloc(), attached_sender(rt, 1));
    ledger.ok().expect(rt, "memory")
}

fn entry_of(rt: &(impl Abort + AllocGlobal)) -> UnsettledMessage {
    UnsettledMessage::new(payload(rt, &[1, 2, 3]), None, 0)
}

// One delivery of each kind, in the order of the variants: to be resumed, sent again, aborted and stated again.
fn kinds(rt: &(impl Abort + AllocGlobal)) -> [ResumingDelivery; 4] {
    [
        ResumingDelivery::Resume {
            entry: entry_of(rt),
            rest: payload(rt, &[2, 3]),
        },
        ResumingDelivery::Resend(entry_of(rt)),
        ResumingDelivery::Abort {
            message_format: 0,
            tag: None,
        },
        ResumingDelivery::RestateOutcome {
            tag: tag_of(rt, 3),
            payload: payload(rt, &[1, 2, 3]),
            local_state: DeliveryState::Accepted,
            message_format: 0,
        },
    ]
}

fn put_last(rt: &impl Abort, list: &mut List, tag: DeliveryTag, next: ResumingDelivery) {
    list.push_back((tag, next)).ok().expect(rt, "memory");
}

// A list of these, with the tags of these counts.
fn list_of(rt: &(impl Abort + AllocGlobal), counts: [u8; 4]) -> List {
    let mut list = VecDeque::new(rt.alloc());
    let [resumed, again, aborted, restated] = kinds(rt);
    let [first, second, third, fourth] = counts;
    put_last(rt, &mut list, tag_of(rt, first), resumed);
    put_last(rt, &mut list, tag_of(rt, second), again);
    put_last(rt, &mut list, tag_of(rt, third), aborted);
    put_last(rt, &mut list, tag_of(rt, fourth), restated);
    list
}

fn resume(ledger: &mut Ledger, list: &mut List) -> Result<Step, LinkStateError> {
    resume_next(ledger, list)
}

fn put_back(ledger: &mut Ledger, list: &mut List) -> Result<Step, LinkStateError> {
    put_back_next(ledger, list)
}

fn answer_of(ledger: &mut Ledger, list: &mut List, call: Call) -> Seen {
    match call {
        Call::ResumeNext(wanted) => stepped(resume(ledger, list), wanted),
        Call::PutBackNext => stepped(put_back(ledger, list), &[]),
    }
}

fn expect_rows(rt: &impl Abort, ledger: &mut Ledger, list: &mut List, rows: &[Row]) {
    for (place, (call, seen, counts)) in rows.iter().enumerate() {
        let actual = answer_of(ledger, list, *call);
        let actual = (actual, [list.len(), ledger.unsettled().len()]);
        assert_equal_at(rt, &actual, &(*seen, *counts), &place);
    }
}

const RESUMED: [Row; 5] = [
    (Call::ResumeNext(&[2, 3]), Seen::Resumed(0, 1, true), [3, 1]),
    (Call::ResumeNext(&[1, 2, 3]), Seen::Sent(1, 1, true), [2, 2]),
    (Call::ResumeNext(&[]), Seen::Aborted(2), [1, 2]),
    (
        Call::ResumeNext(&[]),
        Seen::EndedIn(3, State::Accepted),
        [0, 2],
    ),
    (Call::ResumeNext(&[]), Seen::Nothing, [0, 2]),
];

#[test]
fn each_listed_delivery_is_resumed_in_its_way(rt: HostRuntime) {
    let mut ledger = new_ledger(&rt);
    let mut list = list_of(&rt, [0, 1, 2, 3]);
    expect_rows(&rt, &mut ledger, &mut list, RESUMED.as_slice());
    drop((ledger, list));
}

// The session is lost again: nothing is sent, and what is refused stays the first.
const PUT_BACK: [Row; 6] = [
    (
        Call::ResumeNext(&[]),
        Seen::Refused(Why::IllegalState),
        [4, 0],
    ),
    (Call::PutBackNext, Seen::PutBack, [3, 1]),
    (Call::PutBackNext, Seen::PutBack, [2, 2]),
    (Call::PutBackNext, Seen::EndedIn(2, State::Silent), [1, 2]),
    (Call::PutBackNext, Seen::EndedIn(3, State::Accepted), [0, 2]),
    (Call::PutBackNext, Seen::Nothing, [0, 2]),
];

#[test]
fn what_is_not_sent_is_put_back(rt: HostRuntime) {
    let mut ledger = new_ledger(&rt);
    lose_session(&mut ledger);
    let mut list = list_of(&rt, [0, 1, 2, 3]);
    expect_rows(&rt, &mut ledger, &mut list, PUT_BACK.as_slice());
    drop((ledger, list));
}

// The second delivery has the tag of the first, which is pending once it is sent.
const PENDING: [Row; 3] = [
    (Call::ResumeNext(&[2, 3]), Seen::Resumed(0, 1, true), [3, 1]),
    (
        Call::ResumeNext(&[]),
        Seen::Refused(Why::TagPending),
        [3, 1],
    ),
    (Call::PutBackNext, Seen::Refused(Why::TagPending), [3, 1]),
];

#[test]
fn a_pending_tag_keeps_its_delivery_listed(rt: HostRuntime) {
    let mut ledger = new_ledger(&rt);
    let mut list = list_of(&rt, [0, 0, 2, 3]);
    expect_rows(&rt, &mut ledger, &mut list, PENDING.as_slice());
    drop((ledger, list));
}
