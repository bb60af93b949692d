//! A ledger of ten thousand deliveries.
use crate::assertions::{assert_equal, assert_equal_at, assert_holds_at};
use crate::calls::{pending_in, take_acceptance};
use crate::ledgers::{Sent, attached, send};
use crate::samples::payload_of;
use crate::shown::{Shown, fate_shown};
use amqp_link_ledger::ledger::OutcomeLedger;
use amqp_link_types::types::{DeliveryTag, SenderSettleMode, Target};
use std::process::Abort;

const MANY: u32 = 10_000;

fn tag_of(rt: &(impl Abort + AllocGlobal), count: u32) -> DeliveryTag {
    DeliveryTag::copied(rt.alloc(), &count.to_be_bytes()).expect(rt, "memory")
}

fn send_many(rt: &(impl Abort + AllocGlobal), ledger: &mut OutcomeLedger<Target>) {
    let payload = payload_of(rt, &[7]);
    for count in 0..MANY {
        assert_equal_at(rt, &send(ledger, &payload), &Sent::Unsettled, &count);
    }
    drop(payload);
}

// The receiver accepts and settles the delivery of this count.
fn accept(rt: &(impl Abort + AllocGlobal), ledger: &mut OutcomeLedger<Target>, count: u32) {
    let tag = tag_of(rt, count);
    let answer = take_acceptance(ledger, &tag);
    let answer = answer.expect(rt, "memory");
    let is_ended = answer.outcome.is_some();
    drop((answer, tag));
    assert_holds_at(rt, is_ended, &count);
}

// The last delivery is settled first.
#[test]
fn ten_thousand_deliveries_are_accepted(rt: HostRuntime) {
    let mut ledger = attached(&rt, SenderSettleMode::Unsettled, MANY);
    send_many(&rt, &mut ledger);
    assert_equal(&rt, &pending_in(&ledger), &10_000);
    for count in (0..MANY).rev() {
        accept(&rt, &mut ledger, count);
    }
    assert_equal(&rt, &pending_in(&ledger), &0);
    for number in 0..10_000usize {
        let fate = fate_shown(ledger.fate(number));
        assert_equal_at(&rt, &fate, &Shown::Accepted, &number);
    }
    assert_equal(&rt, &fate_shown(ledger.fate(10_000)), &Shown::Nothing);
    drop(ledger);
}
