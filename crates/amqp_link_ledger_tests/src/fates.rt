//! A ledger worked by hand: what becomes of each registration.
use crate::assertions::{assert_equal, assert_holds_at};
use crate::calls::{pending_in, put_back, take_acceptance, withdraw};
use crate::ledgers::{entry_of, ledger_round, new_link, reattach, three_sent};
use crate::samples::{attach_of, count_tag};
use crate::shown::{Shown, assert_fates};
use amqp_link_core::resumption::ResumingDelivery;
use amqp_link_ledger::ledger::OutcomeLedger;
use amqp_link_sender::{DispositionAnswer, SenderAttachExchange};
use amqp_link_tests_support::calls::take_attach;
use amqp_link_tests_support::links::went;
use amqp_link_types::delivery::UnsettledMessage;
use amqp_link_types::types::{
    Attach, DeliveryState, DeliveryTag, Role, SenderSettleMode, Target, UnsettledMap,
};
use std::process::Abort;

// The second of three deliveries is withdrawn, and the first is accepted and settled.
fn end_two(rt: &(impl Abort + AllocGlobal), ledger: &mut OutcomeLedger<Target>) {
    let second = count_tag(rt, 1);
    let entry = withdraw(ledger, &second);
    let wanted = Some(entry_of(rt, None));
    assert_equal(rt, &entry, &wanted);
    drop((entry, wanted));
    let first = count_tag(rt, 0);
    let answer = take_acceptance(ledger, &first);
    let DispositionAnswer { echo, outcome } = answer.expect(rt, "memory");
    let wanted = Some((count_tag(rt, 0), Ok(Some(DeliveryState::Accepted))));
    assert_equal(rt, &outcome, &wanted);
    drop((outcome, wanted));
    drop((first, second));
    assert_holds_at(rt, !echo, &"a settled disposition is not answered");
}

// The receiver's attach, with an empty map.
fn empty_attach(rt: &(impl Abort + AllocGlobal)) -> Attach {
    let mut attach = attach_of(rt, Role::Receiver, SenderSettleMode::Unsettled);
    attach.unsettled = Some(UnsettledMap::new(rt.alloc()));
    attach
}

// The last delivery of an exchange, if it is to be sent again.
fn last_resent(exchange: SenderAttachExchange) -> Option<(DeliveryTag, UnsettledMessage)> {
    let SenderAttachExchange::Resume(list) = exchange else {
        return None;
    };
    let mut list = list.into_vec();
    let (tag, next) = list.pop()?;
    match next {
        ResumingDelivery::Resend(entry) => Some((tag, entry)),
        _ => None,
    }
}

// The link is attached again at a receiver without deliveries, and the delivery that is handed out is put
// back.
fn exchange_and_put_back(rt: &(impl Abort + AllocGlobal), ledger: &mut OutcomeLedger<Target>) {
    reattach(rt, ledger);
    let answer = take_attach(ledger, empty_attach(rt));
    let (exchange, outcomes) = answer.expect(rt, "an attach that is accepted");
    assert_equal(rt, &outcomes.len(), &0);
    drop(outcomes);
    let resent = last_resent(exchange).expect(rt, "a delivery to send again");
    let wanted = (count_tag(rt, 2), entry_of(rt, None));
    assert_equal(rt, &resent, &wanted);
    drop(wanted);
    let (tag, entry) = resent;
    let put = put_back(ledger, tag, entry);
    assert_holds_at(rt, put, &"a free tag");
}

#[test]
fn each_registration_has_its_fate(rt: HostRuntime) {
    let mut ledger = three_sent(&rt, SenderSettleMode::Unsettled);
    end_two(&rt, &mut ledger);
    exchange_and_put_back(&rt, &mut ledger);
    let wanted = [
        Shown::Accepted,
        Shown::Withdrawn,
        Shown::HandedOut,
        Shown::Pending,
    ];
    assert_fates(&rt, &ledger, &wanted);
    drop(ledger);
}

// The deliveries that a link has before its ledger are registered.
#[test]
fn new_ledger_registers_what_is_pending(rt: HostRuntime) {
    let mut link = new_link(&rt, SenderSettleMode::Unsettled);
    let put = went(link.put_back(count_tag(&rt, 5), entry_of(&rt, None)));
    assert_holds_at(&rt, put, &"a free tag");
    let ledger = ledger_round(&rt, link);
    assert_fates(&rt, &ledger, &[Shown::Pending]);
    assert_equal(&rt, &pending_in(&ledger), &1);
    drop(ledger);
}
