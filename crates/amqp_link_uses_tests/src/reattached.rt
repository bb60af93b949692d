//! A relay's ledger and an inbox over several attachments, without a pair: the session that carries their frames is
//! this file.
use crate::assertions::{assert_equal, assert_equal_at};
use crate::samples::{attach_of, attached_sender, parts, payload};
use amqp_link::delivery::{DeliveryOutcome, Outcomes, UnsettledMessage};
use amqp_link::inbox::Arrival;
use amqp_link::resumption::ResumingDelivery;
use amqp_link::types::{Attach, Detach, OutputHandle, Role, SenderSettleMode, Target, Transfer};
use amqp_link::{
    DeliveryState, DeliveryTag, Fate, Inbox, LinkDetach, LinkExt, LinkFrame, OutcomeLedger,
    Payload, Sending, Waiting, Whole,
};
use amqp_link_tests_support::calls::{lose_session, send_attach, set_output_handle};
use amqp_link_uses::relay::{
    Reattached, detach_to_attach_again, send_again, send_rest, take_attach,
};
use std::process::Abort;

// The bytes of each delivery: two frames of at most 64 bytes, the first with 39 of them.
const SENT: [u8; 76] = [
    0, 1, 2, 3, 4, 5, 6, 7, 8, 9, 10, 11, 12, 13, 14, 15, 16, 17, 18, 19, 20, 21, 22, 23, 24, 25,
    26, 27, 28, 29, 30, 31, 32, 33, 34, 35, 36, 37, 38, 39, 40, 41, 42, 43, 44, 45, 46, 47, 48, 49,
    50, 51, 52, 53, 54, 55, 56, 57, 58, 59, 60, 61, 62, 63, 64, 65, 66, 67, 68, 69, 70, 71, 72, 73,
    74, 75,
];

// A relay that sends, and an inbox that receives.
#[derive(Drop)]
struct Ends {
    relay: OutcomeLedger<Target>,
    inbox: Inbox<Target>,
    next_id: u32,
}

fn relay_of(rt: &(impl Abort + AllocGlobal), credit: u32) -> OutcomeLedger<Target> {
    let ledger = OutcomeLedger::new(rt.alloc(), attached_sender(rt, credit));
    ledger.ok().expect(rt, "memory")
}

// The attach that an inbox sends.
fn inbox_attach(rt: &impl Abort, inbox: &mut Inbox<Target>) -> Attach {
    let frame = inbox.send_attach(false).ok().expect(rt, "memory");
    attach_in(rt, frame)
}

fn take_at_inbox(inbox: &mut Inbox<Target>, theirs: Attach) {
    drop(inbox.on_incoming_attach(theirs));
}

fn grant(inbox: &mut Inbox<Target>, credit: u32) {
    drop(inbox.send_flow(Some(credit), None, false, false));
}

fn attached_inbox(rt: &(impl Abort + AllocGlobal), credit: u32) -> Inbox<Target> {
    let mut inbox = Inbox::new(rt.alloc(), parts(rt, SenderSettleMode::Unsettled));
    set_output_handle(&mut inbox, Some(OutputHandle(3)));
    drop(inbox_attach(rt, &mut inbox));
    let theirs = attach_of(rt, Role::Sender, SenderSettleMode::Unsettled);
    take_at_inbox(&mut inbox, theirs);
    grant(&mut inbox, credit);
    inbox
}

fn attached_ends(rt: &(impl Abort + AllocGlobal), credit: u32) -> Ends {
    let relay = relay_of(rt, credit);
    let inbox = attached_inbox(rt, credit);
    Ends {
        relay,
        inbox,
        next_id: 0,
    }
}

fn frames_of(rt: &(impl Abort + AllocGlobal), relay: &mut OutcomeLedger<Target>) -> Vec<LinkFrame> {
    let bytes = payload(rt, &SENT);
    let sent = relay.send_payload(Waiting::Nothing, &bytes, 0, None, None, false);
    drop(bytes);
    match sent.ok().expect(rt, "memory") {
        Sending::Sent { settlement, frames } => {
            drop(settlement);
            frames
        }
        Sending::CreditMissing => rt.abort(),
    }
}

// A transfer as the session passes it on: it gives the first of a delivery its id.
fn arriving(rt: &impl Abort, frame: LinkFrame, id: u32) -> (Transfer, Payload) {
    match frame {
        LinkFrame::FirstTransfer(sent) => {
            let mut transfer = sent.performative;
            transfer.delivery_id = Some(id);
            (transfer, sent.payload)
        }
        LinkFrame::TransferContinuation(sent) => (sent.performative, sent.payload),
        other => {
            drop(other);
            rt.abort()
        }
    }
}

// What a transfer makes of its delivery: a complete one is taken, and has the bytes that were sent or others.
#[derive(Clone, Copy, Debug, PartialEq, Eq)]
enum Came {
    Begun,
    Complete(bool),
    Known,
    Other,
}

// Takes a complete delivery: whether it has the bytes that were sent.
fn is_taken(inbox: &mut Inbox<Target>, tag: &DeliveryTag) -> bool {
    match inbox.take::<Whole>(tag) {
        Ok(delivery) => {
            let is_sent = delivery.body().0.as_slice() == SENT.as_slice();
            drop(delivery);
            is_sent
        }
        Err(refused) => {
            drop(refused);
            false
        }
    }
}

fn came_by(inbox: &mut Inbox<Target>, arrival: Arrival, tag: Option<DeliveryTag>) -> Came {
    let came = match (arrival, &tag) {
        (Arrival::Begun | Arrival::Continued, _) => Came::Begun,
        (Arrival::Complete, Some(tag)) => Came::Complete(is_taken(inbox, tag)),
        (Arrival::Known, _) => Came::Known,
        _ => Came::Other,
    };
    drop(tag);
    came
}

fn arrive_one(rt: &impl Abort, at: &mut Ends, frame: LinkFrame) -> Came {
    let (transfer, payload) = arriving(rt, frame, at.next_id);
    let arrived = at.inbox.on_incoming_transfer(transfer, payload);
    let Ok(arrived) = arrived else {
        drop(arrived);
        return Came::Other;
    };
    let arrival = arrived.arrival;
    let tag = arrived.tag;
    came_by(&mut at.inbox, arrival, tag)
}

// The first of these frames arrive, so many of them: what the last of those makes of its delivery.
fn arrive(
    rt: &(impl Abort + AllocGlobal),
    at: &mut Ends,
    frames: Vec<LinkFrame>,
    count: usize,
) -> Came {
    at.next_id = at.next_id.wrapping_add(1);
    let mut came = Came::Other;
    for (place, frame) in frames.into_iter().enumerate() {
        if place < count {
            came = arrive_one(rt, at, frame);
        } else {
            drop(frame);
        }
    }
    came
}

// Sends a delivery of which so many frames arrive.
fn send(rt: &(impl Abort + AllocGlobal), at: &mut Ends, count: usize) -> Came {
    let frames = frames_of(rt, &mut at.relay);
    arrive(rt, at, frames, count)
}

fn lose_both(at: &mut Ends) {
    lose_session(&mut at.relay);
    lose_session(&mut at.inbox);
}

fn attach_in(rt: &impl Abort, frame: LinkFrame) -> Attach {
    match frame {
        LinkFrame::Attach(attach) => attach.into_inner(),
        other => {
            drop(other);
            rt.abort()
        }
    }
}

fn attach_sent<E: Drop>(rt: &impl Abort, sent: Result<(LinkFrame, Outcomes), E>) -> Attach {
    let (frame, outcomes) = sent.ok().expect(rt, "memory");
    drop(outcomes);
    attach_in(rt, frame)
}

fn take_at_relay(
    rt: &(impl Abort + AllocGlobal),
    relay: &mut OutcomeLedger<Target>,
    theirs: Attach,
) -> Reattached {
    let again = take_attach(rt.alloc(), relay, theirs);
    again.ok().expect(rt, "an attach that is accepted")
}

// Both endpoints attach again: what follows at the relay.
fn attach_both(rt: &(impl Abort + AllocGlobal), at: &mut Ends) -> Reattached {
    set_output_handle(&mut at.relay, Some(OutputHandle(0)));
    set_output_handle(&mut at.inbox, Some(OutputHandle(3)));
    let own = attach_sent(rt, send_attach(&mut at.relay, false));
    let theirs = inbox_attach(rt, &mut at.inbox);
    take_at_inbox(&mut at.inbox, own);
    take_at_relay(rt, &mut at.relay, theirs)
}

// What the relay and the inbox have done for the deliveries of a list.
#[derive(Clone, Copy, Debug, Default, PartialEq, Eq)]
struct Done {
    // Frames that were sent, and the bytes of the last of them.
    frames: usize,
    last: usize,
    completed: u32,
    known: u32,
    sent_again: u32,
    put_back: u32,
}

fn bytes_in(frame: &LinkFrame) -> usize {
    match frame.as_transfer() {
        Some(sent) => sent.payload.len(),
        None => 0,
    }
}

fn measure(done: &mut Done, frames: &[LinkFrame]) {
    for frame in frames {
        done.frames = done.frames.wrapping_add(1);
        done.last = bytes_in(frame);
    }
}

fn count(done: &mut Done, came: Came) {
    match came {
        Came::Complete(true) => done.completed = done.completed.wrapping_add(1),
        Came::Known => done.known = done.known.wrapping_add(1),
        _ => {}
    }
}

// Whether the inbox accepts and settles the delivery with this tag.
fn is_settled(inbox: &mut Inbox<Target>, tag: &DeliveryTag) -> bool {
    let frame = inbox.dispose(tag, Some(true), DeliveryState::Accepted, false);
    let is_sent = matches!(&frame, Ok(LinkFrame::Disposition(_)));
    drop(frame);
    is_sent
}

// The disposition arrives at the relay.
fn resolve(relay: &mut OutcomeLedger<Target>, tag: &DeliveryTag) {
    drop(relay.on_incoming_disposition(true, Some(DeliveryState::Accepted), tag));
}

fn settle(at: &mut Ends, tag: &DeliveryTag) {
    if is_settled(&mut at.inbox, tag) {
        resolve(&mut at.relay, tag);
    }
}

// The frames of a delivery that is resumed or sent again arrive, and the inbox settles it.
fn finish(
    rt: &(impl Abort + AllocGlobal),
    at: &mut Ends,
    tag: &DeliveryTag,
    frames: Vec<LinkFrame>,
    done: &mut Done,
) {
    measure(done, &frames);
    let came = arrive(rt, at, frames, 9);
    count(done, came);
    settle(at, tag);
}

fn rest_frames(
    rt: &(impl Abort + AllocGlobal),
    relay: &mut OutcomeLedger<Target>,
    tag: &DeliveryTag,
    entry: UnsettledMessage,
    rest: Payload,
) -> Vec<LinkFrame> {
    let sent = send_rest(relay, tag, entry, &rest);
    drop(rest);
    sent.ok().expect(rt, "a rest that is sent")
}

fn whole_frames(
    rt: &(impl Abort + AllocGlobal),
    relay: &mut OutcomeLedger<Target>,
    tag: &DeliveryTag,
    entry: UnsettledMessage,
) -> Vec<LinkFrame> {
    let sent = send_again(relay, tag, entry);
    sent.ok().expect(rt, "a delivery that is sent again")
}

fn put_back(relay: &mut OutcomeLedger<Target>, tag: DeliveryTag, entry: UnsettledMessage) {
    drop(relay.put_back(tag, entry));
}

// The relay goes on with one delivery of the list, as `Reattached` says.
fn go_on(
    rt: &(impl Abort + AllocGlobal),
    at: &mut Ends,
    one: (DeliveryTag, ResumingDelivery),
    is_incomplete: bool,
    done: &mut Done,
) {
    let (tag, next) = one;
    match next {
        ResumingDelivery::Resume { entry, rest } => {
            let frames = rest_frames(rt, &mut at.relay, &tag, entry, rest);
            finish(rt, at, &tag, frames, done);
            drop(tag);
        }
        ResumingDelivery::Resend(entry) if is_incomplete => {
            put_back(&mut at.relay, tag, entry);
            done.put_back = done.put_back.wrapping_add(1);
        }
        ResumingDelivery::Resend(entry) => {
            let frames = whole_frames(rt, &mut at.relay, &tag, entry);
            finish(rt, at, &tag, frames, done);
            drop(tag);
            done.sent_again = done.sent_again.wrapping_add(1);
        }
        other => drop((tag, other)),
    }
}

// Both endpoints attach again, and the relay goes on with the list. Whether that was incomplete, and what was done.
fn attached_again(rt: &(impl Abort + AllocGlobal), at: &mut Ends) -> (bool, Done) {
    let again = attach_both(rt, at);
    let Reattached {
        resuming,
        outcomes,
        is_incomplete,
    } = again;
    drop(outcomes);
    let mut done = Done::default();
    for one in resuming {
        go_on(rt, at, one, is_incomplete, &mut done);
    }
    (is_incomplete, done)
}

// What became of a registration.
#[derive(Clone, Copy, Debug, PartialEq, Eq)]
enum Shown {
    Pending,
    HandedOut,
    Accepted,
    Other,
}

fn state_shown(state: &Option<DeliveryState>) -> Shown {
    match state {
        Some(DeliveryState::Accepted) => Shown::Accepted,
        _ => Shown::Other,
    }
}

fn outcome_shown(outcome: &DeliveryOutcome) -> Shown {
    match outcome {
        Ok(state) => state_shown(state),
        Err(_) => Shown::Other,
    }
}

fn fate_shown(fate: &Fate) -> Shown {
    match fate {
        Fate::Pending => Shown::Pending,
        Fate::HandedOut => Shown::HandedOut,
        Fate::Resolved(outcome) => outcome_shown(outcome),
        _ => Shown::Other,
    }
}

fn fate_of(at: &Ends, number: usize) -> Shown {
    match at.relay.fate(number) {
        Some(fate) => fate_shown(fate),
        None => Shown::Other,
    }
}

// How many deliveries the inbox states, and how many settled ones wait there.
fn kept(at: &Ends) -> (usize, usize) {
    (at.inbox.unsettled().len(), at.inbox.settled_len())
}

// The rest of 37 bytes goes in two frames, since the transfer that resumes a delivery names more than its first one.
#[test]
fn rest_of_two_frames_completes_the_delivery(rt: HostRuntime) {
    let mut at = attached_ends(&rt, 1);
    assert_equal(&rt, &send(&rt, &mut at, 1), &Came::Begun);
    lose_both(&mut at);
    let done = Done {
        frames: 2,
        last: 1,
        completed: 1,
        ..Done::default()
    };
    assert_equal(&rt, &attached_again(&rt, &mut at), &(false, done));
    let fates = [fate_of(&at, 0), fate_of(&at, 1)];
    assert_equal(&rt, &fates, &[Shown::HandedOut, Shown::Accepted]);
    assert_equal(&rt, &kept(&at), &(0, 0));
    drop(at);
}

// The relay detaches an incomplete exchange; the inbox's session replies.
fn detach_in(rt: &impl Abort, frame: LinkFrame) -> Detach {
    match frame {
        LinkFrame::Detach(detach) => detach,
        other => {
            drop(other);
            rt.abort()
        }
    }
}

fn detach_sent(rt: &impl Abort, relay: &OutcomeLedger<Target>) -> Detach {
    let frame = detach_to_attach_again(relay).expect(rt, "an output handle");
    detach_in(rt, frame)
}

fn reply_of(rt: &impl Abort, inbox: &Inbox<Target>, detach: &Detach) -> Detach {
    let reply = inbox.on_incoming_detach(detach, true);
    reply.ok().expect(rt, "memory").expect(rt, "a reply")
}

fn apply<L: LinkDetach>(link: &mut L, detach: Detach) {
    drop(link.apply_remote_detach_outcome(detach));
}

fn detach_both(rt: &impl Abort, at: &mut Ends) {
    let detach = detach_sent(rt, &at.relay);
    let reply = reply_of(rt, &at.inbox, &detach);
    apply(&mut at.inbox, detach);
    apply(&mut at.relay, reply);
}

// Two deliveries have arrived whole, and of a third the first frame; then the session is lost. The inbox's attach does
// not fit a frame of 64 bytes with all three of them.
fn three_unsettled(rt: &(impl Abort + AllocGlobal)) -> Ends {
    let mut at = attached_ends(rt, 3);
    assert_equal(rt, &send(rt, &mut at, 2), &Came::Complete(true));
    assert_equal(rt, &send(rt, &mut at, 2), &Came::Complete(true));
    assert_equal(rt, &send(rt, &mut at, 1), &Came::Begun);
    lose_both(&mut at);
    at
}

// The first exchange states one delivery, the next one the two others. No delivery is sent again, and each is settled
// once: its first registration was handed out, as was the second of those that were put back.
#[test]
fn incomplete_exchange_is_completed(rt: HostRuntime) {
    let mut at = three_unsettled(&rt);
    let first = Done {
        frames: 1,
        known: 1,
        put_back: 2,
        ..Done::default()
    };
    assert_equal(&rt, &attached_again(&rt, &mut at), &(true, first));
    detach_both(&rt, &mut at);
    let second = Done {
        frames: 3,
        last: 1,
        completed: 1,
        known: 1,
        ..Done::default()
    };
    assert_equal_at(
        &rt,
        &attached_again(&rt, &mut at),
        &(false, second),
        &"the second",
    );
    assert_equal(&rt, &kept(&at), &(0, 0));
    let fates = [3, 4, 5, 6, 7, 8].map(|number| fate_of(&at, number));
    let (resolved, moved) = (Shown::Accepted, Shown::HandedOut);
    let wanted = [resolved, moved, moved, resolved, resolved, Shown::Other];
    assert_equal(&rt, &fates, &wanted);
    drop(at);
}
