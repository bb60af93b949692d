//! A relay.
use crate::assertions::{assert_equal, assert_equal_at};
use crate::samples::{attach_of, attached_sender, payload, tag_of};
use amqp_link::delivery::UnsettledMessage;
use amqp_link::resumption::ResumingDelivery;
use amqp_link::types::{Attach, OutputHandle, Role, SenderSettleMode, Target, UnsettledMap};
use amqp_link::{DeliveryState, DeliveryTag, Fate, OutcomeLedger, Payload, Waiting};
use amqp_link_tests_support::calls::{send_attach, send_detach, set_output_handle, take_reply};
use amqp_link_tests_support::table::detach;
use amqp_link_uses::relay::{Reattached, send_again, send_rest, take_attach};
use std::process::Abort;

type Ledger = OutcomeLedger<Target>;

fn new_ledger(rt: &(impl Abort + AllocGlobal)) -> Ledger {
    let ledger = OutcomeLedger::new(rt.alloc(), attached_sender(rt, 1));
    ledger.ok().expect(rt, "memory")
}

fn send_twelve(rt: &(impl Abort + AllocGlobal), ledger: &mut Ledger) {
    let bytes = payload(rt, &[1, 2, 3, 4, 5, 6, 7, 8, 9, 10, 11, 12]);
    drop(ledger.send_payload(Waiting::Nothing, &bytes, 0, None, None, false));
    drop(bytes);
}

// A relay that has sent twelve bytes, was cut off then, and has sent its attach again.
fn attaching_again(rt: &(impl Abort + AllocGlobal)) -> Ledger {
    let mut ledger = new_ledger(rt);
    send_twelve(rt, &mut ledger);
    drop(send_detach(&mut ledger, false));
    drop(take_reply(&mut ledger, detach(false)));
    set_output_handle(&mut ledger, Some(OutputHandle(0)));
    drop(send_attach(&mut ledger, false));
    ledger
}

// The one delivery of an exchange that is complete and returns no outcome.
fn one_of(answer: Reattached) -> Option<(DeliveryTag, ResumingDelivery)> {
    let Reattached {
        mut resuming,
        outcomes,
        is_incomplete,
    } = answer;
    let is_alone = !is_incomplete && outcomes.is_empty() && resuming.len() == 1;
    drop(outcomes);
    if is_alone { resuming.pop() } else { None }
}

// What the relay does for a delivery, in so many frames.
#[derive(Clone, Copy, Debug, PartialEq, Eq)]
enum Done {
    // It sends the rest, which is the last seven bytes or another.
    Resumed { is_rest: bool, frames: usize },
    SentAgain { frames: usize },
    Nothing,
}

fn resumed(
    ledger: &mut Ledger,
    tag: &DeliveryTag,
    entry: UnsettledMessage,
    rest: &Payload,
) -> Done {
    let is_rest = rest.as_slice() == [6, 7, 8, 9, 10, 11, 12].as_slice();
    let sent = send_rest(ledger, tag, entry, rest);
    let done = match &sent {
        Ok(frames) => Done::Resumed {
            is_rest,
            frames: frames.len(),
        },
        Err(_) => Done::Nothing,
    };
    drop(sent);
    done
}

fn sent_again(ledger: &mut Ledger, tag: &DeliveryTag, entry: UnsettledMessage) -> Done {
    let sent = send_again(ledger, tag, entry);
    let done = match &sent {
        Ok(frames) => Done::SentAgain {
            frames: frames.len(),
        },
        Err(_) => Done::Nothing,
    };
    drop(sent);
    done
}

fn go_on(ledger: &mut Ledger, tag: &DeliveryTag, next: ResumingDelivery) -> Done {
    match next {
        ResumingDelivery::Resume { entry, rest } => {
            let done = resumed(ledger, tag, entry, &rest);
            drop(rest);
            done
        }
        ResumingDelivery::Resend(entry) => sent_again(ledger, tag, entry),
        _ => Done::Nothing,
    }
}

// What became of a registration.
#[derive(Clone, Copy, Debug, PartialEq, Eq)]
enum Shown {
    Pending,
    HandedOut,
    Other,
}

fn fate_shown(fate: Option<&Fate>) -> Shown {
    match fate {
        Some(Fate::Pending) => Shown::Pending,
        Some(Fate::HandedOut) => Shown::HandedOut,
        _ => Shown::Other,
    }
}

// What the relay does once it has taken this attach, and the fates of its two registrations.
fn after_cut(rt: &(impl Abort + AllocGlobal), theirs: Attach) -> (Done, [Shown; 2]) {
    let mut ledger = attaching_again(rt);
    let answer = take_attach(rt.alloc(), &mut ledger, theirs).ok();
    let one = one_of(answer.expect(rt, "an attach that is accepted"));
    let (tag, next) = one.expect(rt, "a delivery");
    let done = go_on(&mut ledger, &tag, next);
    drop(tag);
    let fates = [fate_shown(ledger.fate(0)), fate_shown(ledger.fate(1))];
    drop(ledger);
    (done, fates)
}

// The attach of a peer that has nothing.
fn bare(rt: &(impl Abort + AllocGlobal)) -> Attach {
    attach_of(rt, Role::Receiver, SenderSettleMode::Unsettled)
}

// The attach of a peer that has five bytes of the delivery.
fn with_five_bytes(rt: &(impl Abort + AllocGlobal)) -> Attach {
    let mut unsettled = UnsettledMap::new(rt.alloc());
    let state = DeliveryState::Received {
        section_number: 0,
        section_offset: 5,
    };
    drop(unsettled.put(tag_of(rt, 0), Some(state)));
    let mut attach = bare(rt);
    attach.unsettled = Some(unsettled);
    attach
}

#[test]
fn delivery_goes_on_after_a_cut(rt: HostRuntime) {
    let fates = [Shown::HandedOut, Shown::Pending];
    let actual = after_cut(&rt, with_five_bytes(&rt));
    let resumed = Done::Resumed {
        is_rest: true,
        frames: 1,
    };
    assert_equal(&rt, &actual, &(resumed, fates));
    let actual = after_cut(&rt, bare(&rt));
    let again = Done::SentAgain { frames: 1 };
    assert_equal_at(&rt, &actual, &(again, fates), &"a peer that has nothing");
}
