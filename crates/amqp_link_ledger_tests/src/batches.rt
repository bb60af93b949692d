//! What becomes of the registrations as a sender disposes of its deliveries (2.6.12, 2.7.6).
use crate::assertions::assert_equal;
use crate::calls::{dispose, pending_in, release_all};
use crate::ledgers::three_sent;
use crate::samples::count_tag;
use crate::shown::{Shown, assert_fates, assert_outcomes};
use amqp_link_ledger::ledger::OutcomeLedger;
use amqp_link_types::frame::LinkFrame;
use amqp_link_types::types::{
    DeliveryNumber, DeliveryState, DeliveryTag, Role, SenderSettleMode, Target,
};
use std::process::Abort;

// These numbers, each with the tag of a count.
fn listed(
    rt: &(impl Abort + AllocGlobal),
    pairs: &[(DeliveryNumber, u8)],
) -> Vec<(DeliveryNumber, DeliveryTag)> {
    let mut listed = Vec::new(rt.alloc());
    for (id, count) in pairs {
        let pair = (*id, count_tag(rt, *count));
        listed.push(pair).expect(rt, "memory");
    }
    listed
}

// What a frame shows of a sender's disposition of one delivery as released: its number, and whether it settles.
fn released_by(frame: &LinkFrame) -> Option<(DeliveryNumber, bool)> {
    let LinkFrame::Disposition(disposition) = frame else {
        return None;
    };
    let is_alone = matches!(disposition.last, None) && !disposition.batchable;
    let is_released = matches!(&disposition.state, Some(DeliveryState::Released));
    if is_alone && is_released && disposition.role == Role::Sender {
        Some((disposition.first, disposition.settled))
    } else {
        None
    }
}

// These frames are the dispositions of these numbers one by one.
fn assert_disposed(
    rt: &impl Abort,
    frames: &[LinkFrame],
    numbers: &[DeliveryNumber],
    settled: bool,
) {
    assert_equal(rt, &frames.len(), &numbers.len());
    for (place, number) in numbers.iter().enumerate() {
        let shown = frames.get(place).and_then(released_by);
        assert_equal(rt, &shown, &Some((*number, settled)));
    }
}

// Releases four listed deliveries: the third is listed first and twice, and one is listed that is not pending.
fn assert_released(
    rt: &(impl Abort + AllocGlobal),
    ledger: &mut OutcomeLedger<Target>,
    settled: bool,
    wanted: &[(u8, Shown)],
) {
    let pairs = listed(rt, &[(12, 2), (10, 0), (12, 2), (99, 9)]);
    let answer = release_all(ledger, &pairs, settled);
    drop(pairs);
    let (frames, outcomes) = answer.expect(rt, "memory");
    assert_disposed(rt, &frames, &[10, 12, 12, 99], settled);
    assert_outcomes(rt, &outcomes, wanted);
    drop((frames, outcomes));
}

// Disposes of the delivery of this number and this count.
fn assert_one_disposed(
    rt: &(impl Abort + AllocGlobal),
    ledger: &mut OutcomeLedger<Target>,
    (number, count): (DeliveryNumber, u8),
    settled: bool,
    wanted: &[(u8, Shown)],
) {
    let tag = count_tag(rt, count);
    let answer = dispose(ledger, number, &tag, settled, DeliveryState::Released);
    drop(tag);
    let (frames, outcomes) = answer.expect(rt, "memory");
    assert_disposed(rt, &frames, &[number], settled);
    assert_outcomes(rt, &outcomes, wanted);
    drop((frames, outcomes));
}

// Only what is settled resolves: each delivery with the state that was stored for it.
#[test]
fn settled_deliveries_resolve_by_tag(rt: HostRuntime) {
    let mut ledger = three_sent(&rt, SenderSettleMode::Mixed);
    assert_released(&rt, &mut ledger, false, &[]);
    assert_fates(&rt, &ledger, &[Shown::Pending; 3]);
    let second = [(1, Shown::NoState)];
    assert_one_disposed(&rt, &mut ledger, (11, 1), true, &second);
    let wanted = [(0, Shown::Released), (2, Shown::Released)];
    assert_released(&rt, &mut ledger, true, &wanted);
    let fates = [Shown::Released, Shown::NoState, Shown::Released];
    assert_fates(&rt, &ledger, &fates);
    assert_equal(&rt, &pending_in(&ledger), &0);
    drop(ledger);
}
