//! What ends all registrations at once: a new attach and a detach that closes; and what ends none.
use crate::assertions::{assert_equal, assert_holds_at};
use crate::calls::{fail_pending, pending_in, take_detach};
use crate::ledgers::{new_ledger, put, three_sent};
use crate::samples::{attach_of, count_tag};
use crate::shown::{Shown, assert_fates, assert_outcomes};
use amqp_link_endpoint::endpoint::LinkExt;
use amqp_link_endpoint::endpoint::dividing::attach_frame;
use amqp_link_ledger::fate::Fate;
use amqp_link_ledger::ledger::OutcomeLedger;
use amqp_link_state::state::LinkState;
use amqp_link_tests_support::calls::{local_state, lose_session, send_attach, set_output_handle};
use amqp_link_tests_support::refusals::{Asked, Refusal, asked_by, at_sender};
use amqp_link_tests_support::table::detach;
use amqp_link_types::delivery::{DeliveryOutcome, Outcomes};
use amqp_link_types::frame::LinkFrame;
use amqp_link_types::types::{
    Detach, Error, Handle, LinkStateError, OutputHandle, Role, SenderAttachError, SenderSettleMode,
    Symbol, Target,
};
use std::process::Abort;

// These outcomes are those of all three deliveries, and their fates.
fn assert_all_ended(
    rt: &impl Abort,
    ledger: &OutcomeLedger<Target>,
    outcomes: &Outcomes,
    shown: Shown,
) {
    assert_outcomes(rt, outcomes, &[(0, shown), (1, shown), (2, shown)]);
    assert_fates(rt, ledger, &[shown; 3]);
    assert_equal(rt, &pending_in(ledger), &0);
}

// The attach of a sender with the count 3, without deliveries.
fn attach_of_count_3(rt: &(impl Abort + AllocGlobal)) -> LinkFrame {
    let mut attach = attach_of(rt, Role::Sender, SenderSettleMode::Mixed);
    attach.initial_delivery_count = Some(3);
    attach_frame(rt.alloc(), attach).expect(rt, "memory")
}

// A link that is reattached resolves its deliveries.
#[test]
fn new_attach_resolves_all(rt: HostRuntime) {
    let mut ledger = three_sent(&rt, SenderSettleMode::Mixed);
    lose_session(&mut ledger);
    set_output_handle(&mut ledger, Some(OutputHandle(0)));
    assert_fates(&rt, &ledger, &[Shown::Pending; 3]);
    let sent = send_attach(&mut ledger, true);
    let (frame, outcomes) = sent.expect(&rt, "an attach is sent");
    let wanted = attach_of_count_3(&rt);
    assert_equal(&rt, &frame, &wanted);
    drop((frame, wanted));
    assert_all_ended(&rt, &ledger, &outcomes, Shown::Illegal);
    drop((outcomes, ledger));
}

// The link is closed, since the peer's attach has failed: why, and what is asked of the session.
fn closed_for(
    rt: &impl Abort,
    ledger: &mut OutcomeLedger<Target>,
    error: SenderAttachError,
) -> (Refusal, Asked) {
    let answer = ledger.handle_attach_error(error);
    let (error, action) = answer.expect(rt, "memory");
    let shown = (at_sender(&error), asked_by(&action));
    drop((error, action));
    shown
}

// A link that is closed since its attach has failed resolves nothing.
#[test]
fn closed_for_a_failed_attach_resolves_nothing(rt: HostRuntime) {
    let mut ledger = three_sent(&rt, SenderSettleMode::Mixed);
    let error = SenderAttachError::CoordinatorIsNotImplemented;
    let actual = closed_for(&rt, &mut ledger, error);
    assert_equal(&rt, &local_state(&ledger), &LinkState::CloseSent);
    assert_fates(&rt, &ledger, &[Shown::Pending; 3]);
    drop(ledger);
    let wanted = (
        Refusal::CoordinatorIsNotImplemented,
        Asked::CloseAsNotImplemented,
    );
    assert_equal(&rt, &actual, &wanted);
}

// A detach that the peer initiates, and that closes, resolves all; the reply closes as well.
#[test]
fn closing_detach_resolves_all(rt: HostRuntime) {
    let mut ledger = three_sent(&rt, SenderSettleMode::Mixed);
    let closing = detach(true);
    let answer = take_detach(&mut ledger, &closing);
    let (reply, outcomes) = answer.expect(&rt, "memory");
    assert_equal(&rt, &reply, &Some(closing));
    drop(reply);
    assert_all_ended(&rt, &ledger, &outcomes, Shown::Closed);
    drop((outcomes, ledger));
}

// An error of the condition x:y.
fn error_of(rt: &(impl Abort + AllocGlobal)) -> Error {
    let condition = String::from_str(rt.alloc(), "x:y").expect(rt, "memory");
    Error {
        condition: Symbol::from(condition),
        description: None,
        info: None,
    }
}

fn closed_with_error(rt: &(impl Abort + AllocGlobal)) -> DeliveryOutcome {
    Err(LinkStateError::RemoteClosedWithError(error_of(rt)))
}

// The error of a detach is that of each delivery which it ends.
#[test]
fn error_of_a_detach_is_the_outcome(rt: HostRuntime) {
    let mut ledger = new_ledger(&rt, SenderSettleMode::Mixed);
    assert_holds_at(&rt, put(&rt, &mut ledger, 3), &"a free tag");
    let closing = Detach {
        handle: Handle(0),
        closed: true,
        error: Some(error_of(&rt)),
    };
    let outcomes = fail_pending(&mut ledger, &closing);
    drop(closing);
    let outcomes = outcomes.expect(&rt, "memory");
    let wanted = vec![in rt.alloc(); (count_tag(&rt, 3), closed_with_error(&rt))];
    let wanted: Outcomes = wanted.expect(&rt, "memory");
    assert_equal(&rt, &outcomes, &wanted);
    drop((outcomes, wanted));
    let fate = Fate::Resolved(closed_with_error(&rt));
    assert_equal(&rt, &ledger.fate(0), &Some(&fate));
    drop((fate, ledger));
}
