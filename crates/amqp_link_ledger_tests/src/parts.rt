//! What a ledger is made of, each call once: the registrations, and the copies of the outcomes of an exchange.
use crate::assertions::{assert_equal, assert_holds_at};
use crate::samples::{count_tag, payload_of};
use crate::shown::{Shown, fate_shown, outcome_shown};
use amqp_link_exchange::plan_exchange;
use amqp_link_ledger::registrations::Registrations;
use amqp_link_types::delivery::{DeliveryOutcome, UnsettledMessage};
use amqp_link_types::types::{DeliveryState, DeliveryTag, UnsettledMap};
use std::process::Abort;

fn reserve_and_register(
    rt: &(impl Abort + AllocGlobal),
    all: &mut Registrations,
    tag: &DeliveryTag,
) -> bool {
    if all.is_pending(tag) {
        return false;
    }
    let reserved = all.reserve(rt.alloc(), tag.as_bytes());
    all.register(reserved.expect(rt, "memory"));
    all.is_pending(tag)
}

#[test]
fn reserved_delivery_is_registered(rt: HostRuntime) {
    let mut all = Registrations::new(rt.alloc());
    let tag = count_tag(&rt, 3);
    let is_registered = reserve_and_register(&rt, &mut all, &tag);
    let fate = fate_shown(all.fate(0));
    drop((all, tag));
    assert_holds_at(&rt, is_registered, &"a tag that was free");
    assert_equal(&rt, &fate, &Shown::Pending);
}

// The maps of a sender and of a receiver that has accepted the sender's one delivery.
type Maps = (
    UnsettledMap<UnsettledMessage>,
    UnsettledMap<Option<DeliveryState>>,
);

fn maps(rt: &(impl Abort + AllocGlobal)) -> Maps {
    let mut own = UnsettledMap::new(rt.alloc());
    let entry = UnsettledMessage::new(payload_of(rt, &[7]), None, 0);
    drop(own.put(count_tag(rt, 3), entry).expect(rt, "memory"));
    let mut remote = UnsettledMap::new(rt.alloc());
    let accepted = Some(DeliveryState::Accepted);
    drop(remote.put(count_tag(rt, 3), accepted).expect(rt, "memory"));
    (own, remote)
}

fn copied(
    rt: &(impl Abort + AllocGlobal),
    own: &UnsettledMap<UnsettledMessage>,
    remote: UnsettledMap<Option<DeliveryState>>,
) -> Vec<DeliveryOutcome> {
    let plan = plan_exchange(rt.alloc(), own, remote).expect(rt, "memory");
    let copies = plan.copies_of_outcomes(rt.alloc(), own);
    drop(plan);
    copies.expect(rt, "memory")
}

fn first_shown(outcomes: &[DeliveryOutcome]) -> Shown {
    match outcomes.first() {
        Some(outcome) => outcome_shown(outcome),
        None => Shown::Nothing,
    }
}

#[test]
fn outcomes_of_an_exchange_are_copied(rt: HostRuntime) {
    let (own, remote) = maps(&rt);
    let copies = copied(&rt, &own, remote);
    let shown = (copies.len(), first_shown(copies.as_slice()));
    drop((copies, own));
    assert_equal(&rt, &shown, &(1, Shown::Accepted));
}
