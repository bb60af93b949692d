//! Scripts of calls on a broker, with what each returns. The frames of the peers are made by hand.
use crate::assertions::assert_equal_at;
use crate::samples::{attach_of, flow_of, parts, payload, tag_of};
use crate::seen::{
    Seen, arrived, attached, disposed, flow_seen, forgotten, queued, resumed, returned, sent,
};
use amqp_link::inbox::Arrival;
use amqp_link::types::{
    Attach, DeliveryState, OutputHandle, Role, SenderSettleMode, Transfer, UnsettledMap,
};
use amqp_link::{Inbox, LinkDetach, LinkExt, OutcomeLedger, SenderLink};
use amqp_link_tests_support::calls::{lose_session, set_output_handle};
use amqp_link_uses::broker::{Broker, Incoming, Outgoing};
use std::process::Abort;

// A transfer of an incoming link's sender.
#[derive(Clone, Copy, Debug)]
pub(crate) enum Frame {
    /// The first of a delivery, with its id and the count of its tag.
    First(u32, u8),
    /// The first of a delivery that is settled.
    FirstSettled(u32, u8),
    /// The first of a delivery that is resumed.
    Resumes(u32, u8),
    /// A further one.
    Further,
}

pub(crate) const MORE: bool = true;

pub(crate) const LAST: bool = false;

// A state that an outgoing link's receiver gives a delivery.
#[derive(Clone, Copy, Debug, PartialEq, Eq)]
pub(crate) enum State {
    Accepted,
    Rejected,
    Released,
    /// A position in it, at its start.
    Received,
    /// None.
    Silent,
}

// A call of the broker at the link of this number, or one of the inbox or of the ledger at number 0.
#[derive(Clone, Copy, Debug)]
pub(crate) enum Call {
    /// Both attaches of the incoming link: its sender's states deliveries with these tags.
    AttachIncoming(&'static [u8]),
    /// The session of the incoming link is lost.
    CutIncoming,
    /// Its sender states nothing of the delivery with this tag, by a disposition that does not settle it.
    SenderStates(u8),
    /// A transfer with these bytes, of which more is to come or not.
    Come(Frame, &'static [u8], bool),
    Grant(usize, u32),
    Take(usize, u8),
    TakeSettled(usize),
    Settle(usize, u8),
    /// Both attaches of an outgoing link: its receiver's states so many bytes of deliveries with these tags.
    AttachOutgoing(usize, &'static [(u8, u64)]),
    /// The same with an attach that does not state all deliveries.
    AttachIncomplete(usize, &'static [(u8, u64)]),
    /// The session of the outgoing link is lost.
    CutOutgoing,
    /// Its receiver grants credit.
    Flow(u32),
    /// The first message of the queue is sent; its bytes are to be these.
    SendNext(usize, &'static [u8]),
    /// The first delivery that is left is resumed; the bytes that are sent of it are to be these.
    ResumeNext(usize, &'static [u8]),
    PutBackNext(usize),
    /// The receiver settles the delivery with this tag, or states this of it.
    Dispose(usize, u8, bool, State),
}

// A call and what it returns; then how many messages are queued, are under way on the outgoing link, and may still come.
pub(crate) type Row = (Call, Seen, [usize; 3]);

fn state_of(state: State) -> Option<DeliveryState> {
    match state {
        State::Accepted => Some(DeliveryState::Accepted),
        State::Rejected => Some(DeliveryState::Rejected { error: None }),
        State::Released => Some(DeliveryState::Released),
        State::Received => {
            Some(DeliveryState::Received {
                section_number: 0,
                section_offset: 0,
            })
        }
        State::Silent => None,
    }
}

fn named(rt: &(impl Abort + AllocGlobal), id: u32, count: u8) -> Transfer {
    Transfer {
        delivery_id: Some(id),
        delivery_tag: Some(tag_of(rt, count)),
        ..Transfer::default()
    }
}

fn transfer_of(rt: &(impl Abort + AllocGlobal), frame: Frame, more: bool) -> Transfer {
    let mut transfer = match frame {
        Frame::First(id, count) => named(rt, id, count),
        Frame::FirstSettled(id, count) => Transfer {
            settled: Some(true),
            ..named(rt, id, count)
        },
        Frame::Resumes(id, count) => Transfer {
            resume: true,
            ..named(rt, id, count)
        },
        Frame::Further => Transfer::default(),
    };
    transfer.more = more;
    transfer
}

fn sender_attach(rt: &(impl Abort + AllocGlobal), counts: &[u8]) -> Attach {
    let mut unsettled = UnsettledMap::new(rt.alloc());
    for count in counts {
        drop(unsettled.put(tag_of(rt, *count), None));
    }
    Attach {
        unsettled: Some(unsettled),
        ..attach_of(rt, Role::Sender, SenderSettleMode::Mixed)
    }
}

fn receiver_attach(
    rt: &(impl Abort + AllocGlobal),
    mode: SenderSettleMode,
    reached: &[(u8, u64)],
) -> Attach {
    let mut unsettled = UnsettledMap::new(rt.alloc());
    for (count, bytes) in reached {
        let state = DeliveryState::Received {
            section_number: 0,
            section_offset: *bytes,
        };
        drop(unsettled.put(tag_of(rt, *count), Some(state)));
    }
    Attach {
        unsettled: Some(unsettled),
        ..attach_of(rt, Role::Receiver, mode)
    }
}

fn new_outgoing(rt: &(impl Abort + AllocGlobal), mode: SenderSettleMode) -> Outgoing {
    let link = SenderLink::new(rt.alloc(), parts(rt, mode));
    let ledger = OutcomeLedger::new(rt.alloc(), link).ok();
    Outgoing::new(rt.alloc(), ledger.expect(rt, "memory"))
}

// A broker with one incoming link and one outgoing link of this mode.
fn new_broker(rt: &(impl Abort + AllocGlobal), room: u32, mode: SenderSettleMode) -> Broker {
    let mut broker = Broker::new(rt.alloc(), room);
    let inbox = Inbox::new(rt.alloc(), parts(rt, SenderSettleMode::Mixed));
    let incoming = Incoming::new(rt.alloc(), inbox);
    broker.incoming.push(incoming).ok().expect(rt, "memory");
    let outgoing = new_outgoing(rt, mode);
    broker.outgoing.push(outgoing).ok().expect(rt, "memory");
    broker
}

fn attach_incoming(rt: &(impl Abort + AllocGlobal), broker: &mut Broker, stated: &[u8]) -> Seen {
    let theirs = sender_attach(rt, stated);
    let Some(from) = broker.incoming.get_mut(0) else {
        rt.abort()
    };
    set_output_handle(&mut from.inbox, Some(OutputHandle(3)));
    drop(from.inbox.send_attach(false));
    forgotten(from.inbox.on_incoming_attach(theirs))
}

fn come(
    rt: &(impl Abort + AllocGlobal),
    broker: &mut Broker,
    transfer: Transfer,
    bytes: &[u8],
) -> Seen {
    let payload = payload(rt, bytes);
    let Some(from) = broker.incoming.get_mut(0) else {
        rt.abort()
    };
    arrived(from.inbox.on_incoming_transfer(transfer, payload))
}

fn sender_states(rt: &(impl Abort + AllocGlobal), broker: &mut Broker, count: u8) -> Seen {
    let tag = tag_of(rt, count);
    let Some(from) = broker.incoming.get_mut(0) else {
        rt.abort()
    };
    drop(from.inbox.on_incoming_disposition(false, None, &tag));
    drop(tag);
    Seen::Done
}

fn cut_incoming(rt: &impl Abort, broker: &mut Broker) -> Seen {
    let Some(from) = broker.incoming.get_mut(0) else {
        rt.abort()
    };
    lose_session(&mut from.inbox);
    Seen::Done
}

// The outgoing link at number 0 has a handle.
fn give_handle(rt: &impl Abort, broker: &mut Broker) -> SenderSettleMode {
    let Some(outgoing) = broker.outgoing.get_mut(0) else {
        rt.abort()
    };
    set_output_handle(&mut outgoing.ledger, Some(OutputHandle(0)));
    outgoing.ledger.snd_settle_mode()
}

fn send_own(broker: &mut Broker) {
    drop(broker.send_attach(0, false));
}

fn attach_outgoing(
    rt: &(impl Abort + AllocGlobal),
    broker: &mut Broker,
    link: usize,
    (reached, is_incomplete): (&[(u8, u64)], bool),
) -> Seen {
    let mode = give_handle(rt, broker);
    send_own(broker);
    let mut theirs = receiver_attach(rt, mode, reached);
    theirs.incomplete_unsettled = is_incomplete;
    let answer = broker.on_incoming_attach(link, theirs);
    let Some(outgoing) = broker.outgoing.get(0) else {
        rt.abort()
    };
    attached(answer, outgoing.resuming_len(), outgoing.is_incomplete())
}

fn cut_outgoing(rt: &impl Abort, broker: &mut Broker) -> Seen {
    let Some(outgoing) = broker.outgoing.get_mut(0) else {
        rt.abort()
    };
    lose_session(&mut outgoing.ledger);
    Seen::Done
}

fn take_flow(rt: &impl Abort, broker: &mut Broker, credit: u32) -> Seen {
    let Some(outgoing) = broker.outgoing.get_mut(0) else {
        rt.abort()
    };
    drop(outgoing.ledger.on_incoming_flow(flow_of(credit)));
    Seen::Done
}

fn take(rt: &(impl Abort + AllocGlobal), broker: &mut Broker, link: usize, count: u8) -> Seen {
    let tag = tag_of(rt, count);
    let answer = broker.take(link, &tag);
    drop(tag);
    match answer {
        Ok(()) => Seen::Done,
        Err(error) => queued(error),
    }
}

fn take_settled(broker: &mut Broker, link: usize) -> Seen {
    match broker.take_settled(link) {
        Ok(true) => Seen::Done,
        Ok(false) => Seen::Nothing,
        Err(error) => queued(error),
    }
}

fn settle(rt: &(impl Abort + AllocGlobal), broker: &mut Broker, link: usize, count: u8) -> Seen {
    let tag = tag_of(rt, count);
    let answer = broker.settle(link, &tag);
    drop(tag);
    disposed(answer)
}

fn dispose(
    rt: &(impl Abort + AllocGlobal),
    broker: &mut Broker,
    link: usize,
    disposition: (u8, bool, State),
) -> Seen {
    let (count, settled, state) = disposition;
    let tag = tag_of(rt, count);
    let answer = broker.on_incoming_disposition(link, settled, state_of(state), &tag);
    drop(tag);
    returned(answer)
}

fn perform_incoming(rt: &(impl Abort + AllocGlobal), broker: &mut Broker, call: Call) -> Seen {
    match call {
        Call::AttachIncoming(stated) => attach_incoming(rt, broker, stated),
        Call::CutIncoming => cut_incoming(rt, broker),
        Call::SenderStates(count) => sender_states(rt, broker, count),
        Call::Come(frame, bytes, more) => {
            let transfer = transfer_of(rt, frame, more);
            come(rt, broker, transfer, bytes)
        }
        Call::Grant(link, more) => flow_seen(broker.grant(link, more)),
        Call::Take(link, count) => take(rt, broker, link, count),
        Call::TakeSettled(link) => take_settled(broker, link),
        Call::Settle(link, count) => settle(rt, broker, link, count),
        _ => Seen::Other,
    }
}

fn perform(rt: &(impl Abort + AllocGlobal), broker: &mut Broker, call: Call) -> Seen {
    match call {
        Call::AttachOutgoing(link, reached) => attach_outgoing(rt, broker, link, (reached, false)),
        Call::AttachIncomplete(link, reached) => attach_outgoing(rt, broker, link, (reached, true)),
        Call::CutOutgoing => cut_outgoing(rt, broker),
        Call::Flow(credit) => take_flow(rt, broker, credit),
        Call::SendNext(link, bytes) => sent(broker.send_next(link), bytes),
        Call::ResumeNext(link, bytes) => resumed(broker.resume_next(link), bytes),
        Call::PutBackNext(link) => resumed(broker.put_back_next(link), &[]),
        Call::Dispose(link, count, settled, state) => dispose(
            rt,
            broker,
            link,
            (count, settled, state),
        ),
        call => perform_incoming(rt, broker, call),
    }
}

// How many messages are queued, are under way, and may still come.
fn standing(rt: &impl Abort, broker: &Broker) -> [usize; 3] {
    let Some(outgoing) = broker.outgoing.get(0) else {
        rt.abort()
    };
    [broker.queued(), outgoing.under_way_len(), broker.free()]
}

// Both links are attached.
fn attaches(room: usize) -> [Row; 2] {
    [
        (Call::AttachIncoming(&[]), Seen::Forgotten(0), [0, 0, room]),
        (
            Call::AttachOutgoing(0, &[]),
            Seen::Left(0, false),
            [0, 0, room],
        ),
    ]
}

// A message of three bytes is taken in from the delivery with tag 5 and id 7, and sent on under tag 0, all within room for one.
const SENDING: [Row; 5] = [
    (Call::Grant(0, 1), Seen::Credit(1), [0, 0, 0]),
    (
        Call::Come(Frame::First(7, 5), &[1, 2, 3], LAST),
        Seen::Came(Arrival::Complete),
        [0, 0, 0],
    ),
    (Call::Take(0, 5), Seen::Done, [1, 0, 0]),
    (Call::Flow(1), Seen::Done, [1, 0, 0]),
    (
        Call::SendNext(0, &[1, 2, 3]),
        Seen::Sent(0, 1, true),
        [0, 1, 0],
    ),
];

// Makes the calls of a script.
fn expect_calls(rt: &(impl Abort + AllocGlobal), broker: &mut Broker, script: &[Row]) {
    for (place, (call, seen, left)) in script.iter().enumerate() {
        let actual = (perform(rt, broker, *call), standing(rt, broker));
        assert_equal_at(rt, &actual, &(*seen, *left), &(place, *call));
    }
}

// Makes the calls of a script on a broker with this room, whose outgoing link is of this mode, once its links are attached.
pub(crate) fn expect_script(
    rt: &(impl Abort + AllocGlobal),
    room: u8,
    mode: SenderSettleMode,
    script: &[Row],
) {
    let mut broker = new_broker(rt, room.into(), mode);
    expect_calls(rt, &mut broker, attaches(room.into()).as_slice());
    expect_calls(rt, &mut broker, script);
    drop(broker);
}

// The same with room for one message, once that is under way.
pub(crate) fn expect_after_sending(rt: &(impl Abort + AllocGlobal), script: &[Row]) {
    let mut broker = new_broker(rt, 1, SenderSettleMode::Unsettled);
    expect_calls(rt, &mut broker, attaches(1).as_slice());
    expect_calls(rt, &mut broker, SENDING.as_slice());
    expect_calls(rt, &mut broker, script);
    drop(broker);
}
