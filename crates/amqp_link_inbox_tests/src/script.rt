//! Scripts of calls on an inbox, with what each returns.
use crate::assertions::assert_equal_at;
use amqp_link_core::incomplete_transfer::RefusedTransfer;
use amqp_link_endpoint::endpoint::{LinkDetach, LinkExt};
use amqp_link_inbox::{Arrival, Arrived, DisposeError, Inbox, Stage, TakeError};
use amqp_link_tests_support::links::{attach_of, parts};
use amqp_link_types::delivery::Delivery;
use amqp_link_types::frame::LinkFrame;
use amqp_link_types::types::unsettled_map::UnsettledMap;
use amqp_link_types::types::{
    Attach, DeliveryState, DeliveryTag, OutputHandle, Payload, ReceiverTransferError, Role,
    SenderSettleMode, Target, Transfer, Whole,
};
use std::alloc::{AllocError, Global};
use std::process::Abort;

// A transfer of the peer's.
#[derive(Clone, Copy, Debug)]
pub(crate) enum Frame {
    /// The first of a delivery, with its id and tag.
    First(u32, u8),
    /// The first of a delivery that is settled.
    FirstSettled(u32, u8),
    /// The first of a delivery that is resumed.
    Resumes(u32, u8),
    /// The same, which says from which offset of the first section on.
    ResumesAt(u32, u8, u64),
    /// A further one.
    Further,
    /// A further one, which settles the delivery.
    Settles,
    /// A further one, which aborts the delivery.
    Aborts,
    /// One that aborts the delivery with this tag, as the first of this id.
    AbortsFirst(u32, u8),
}

pub(crate) const MORE: bool = true;

pub(crate) const LAST: bool = false;

#[derive(Clone, Copy, Debug)]
pub(crate) enum Call {
    /// Both attaches: the peer's states deliveries with these tags.
    Attach(&'static [u8]),
    /// The same, and the peer's does not state all.
    AttachInPart(&'static [u8]),
    /// The session is lost.
    Cut,
    /// A window of so many deliveries is stated.
    Grant(u32),
    /// A transfer with these bytes, of which more is to come or not.
    Come(Frame, &'static [u8], bool),
    /// The delivery with this tag is taken; its bytes are to be these.
    Take(u8, &'static [u8]),
    TakeSettled(&'static [u8]),
    /// The delivery is accepted and settled.
    Accept(u8),
    /// The deliveries with these tags are.
    AcceptAll(&'static [u8]),
    /// Its outcome is kept.
    Keep(u8),
}

#[derive(Clone, Copy, Debug, PartialEq, Eq)]
pub(crate) enum Seen {
    /// How many deliveries the peer has forgotten.
    Forgotten(usize),
    Done,
    /// What a transfer has made of its delivery.
    Came(Arrival),
    /// It has begun a delivery in the place of another, which had come as far as that.
    Replaced(Stage),
    /// It has begun one without credit.
    Uncredited,
    /// Whether the bytes of a delivery are those that were asked for.
    Taken(bool),
    /// The id by which a disposition names its delivery.
    Sent(Option<u32>),
    /// How many dispositions are sent.
    Frames(usize),
    /// A transfer is handed back.
    Refused,
    NotTaken(Untaken),
    NotDisposed(DisposeError),
    OutOfMemory,
}

// Why a delivery is not taken.
#[derive(Clone, Copy, Debug, PartialEq, Eq)]
pub(crate) enum Untaken {
    Unknown,
    NotComplete,
    Already,
    Other,
}

// A call and what it returns; then the link-credit, and how many deliveries the link states.
pub(crate) type Row = (Call, Seen, u32, usize);

pub(crate) fn tag_of(alloc: Global, byte: u8) -> Result<DeliveryTag, AllocError> {
    DeliveryTag::copied(alloc, &[byte])
}

pub(crate) fn new_inbox(rt: &(impl Abort + AllocGlobal)) -> Inbox<Target> {
    let made = parts(rt.alloc(), SenderSettleMode::Mixed, 512);
    let made = made.or_else(|_| parts(rt.alloc(), SenderSettleMode::Mixed, 512));
    Inbox::new(rt.alloc(), made.expect(rt, "memory")).with_output_handle(OutputHandle(0))
}

// The peer's attach.
pub(crate) fn theirs(alloc: Global, stated: &[u8], incomplete: bool) -> Result<Attach, AllocError> {
    let mut map = UnsettledMap::new(alloc);
    for byte in stated {
        drop(map.put(tag_of(alloc, *byte)?, None)?);
    }
    let mut attach = attach_of(alloc, Role::Sender, SenderSettleMode::Mixed)?;
    attach.unsettled = Some(map);
    attach.incomplete_unsettled = incomplete;
    Ok(attach)
}

fn is_sent(inbox: &mut Inbox<Target>) -> bool {
    match inbox.send_attach(false) {
        Ok(frame) => {
            drop(frame);
            true
        }
        Err(_) => false,
    }
}

// How many deliveries the peer's attach forgets, if it is taken.
fn taken_attach(
    alloc: Global,
    inbox: &mut Inbox<Target>,
    stated: &[u8],
    incomplete: bool,
) -> Option<usize> {
    let Ok(theirs) = theirs(alloc, stated, incomplete) else {
        return None;
    };
    match inbox.on_incoming_attach(theirs) {
        Ok((_, forgotten)) => {
            let count = forgotten.len();
            drop(forgotten);
            Some(count)
        }
        Err(error) => {
            drop(error);
            None
        }
    }
}

// Each half is tried twice, since one growth may be refused.
fn attach(alloc: Global, inbox: &mut Inbox<Target>, stated: &[u8], incomplete: bool) -> Seen {
    *inbox.output_handle_mut() = Some(OutputHandle(0));
    if !is_sent(inbox) && !is_sent(inbox) {
        return Seen::OutOfMemory;
    }
    let count = taken_attach(alloc, inbox, stated, incomplete);
    let count = match count {
        Some(count) => Some(count),
        None => taken_attach(alloc, inbox, stated, incomplete),
    };
    match count {
        Some(count) => Seen::Forgotten(count),
        None => Seen::OutOfMemory,
    }
}

fn grant(inbox: &mut Inbox<Target>, window: u32) -> Seen {
    match inbox.send_flow(Some(window), None, false, false) {
        Ok(frame) => {
            drop(frame);
            Seen::Done
        }
        Err(_) => Seen::Refused,
    }
}

// The id and tag that a frame carries.
fn names_of(frame: Frame) -> Option<(u32, u8)> {
    match frame {
        Frame::First(id, tag)
        | Frame::FirstSettled(id, tag)
        | Frame::Resumes(id, tag)
        | Frame::ResumesAt(id, tag, _)
        | Frame::AbortsFirst(id, tag) => Some((id, tag)),
        Frame::Further | Frame::Settles | Frame::Aborts => None,
    }
}

pub(crate) fn transfer_of(alloc: Global, frame: Frame, more: bool) -> Result<Transfer, AllocError> {
    let names = names_of(frame);
    Ok(Transfer {
        delivery_id: names.map(|names| names.0),
        delivery_tag: match names {
            Some((_, byte)) => Some(tag_of(alloc, byte)?),
            None => None,
        },
        more,
        resume: matches!(frame, Frame::Resumes(_, _) | Frame::ResumesAt(_, _, _)),
        state: match frame {
            Frame::ResumesAt(_, _, section_offset) => Some(DeliveryState::Received {
                section_number: 0,
                section_offset,
            }),
            _ => None,
        },
        settled: match frame {
            Frame::FirstSettled(_, _) | Frame::Settles => Some(true),
            _ => None,
        },
        aborted: matches!(frame, Frame::Aborts | Frame::AbortsFirst(_, _)),
        ..Transfer::default()
    })
}

fn seen_of(came: &Arrived) -> Seen {
    match came.replaced {
        Some(stage) => Seen::Replaced(stage),
        None if came.without_credit => Seen::Uncredited,
        None => Seen::Came(came.arrival),
    }
}

fn arrive(
    alloc: Global,
    inbox: &mut Inbox<Target>,
    frame: Frame,
    bytes: &[u8],
    more: bool,
) -> Seen {
    let Ok(transfer) = transfer_of(alloc, frame, more) else {
        return Seen::OutOfMemory;
    };
    let Ok(payload) = Payload::copy_from_slice(alloc, bytes) else {
        drop(transfer);
        return Seen::OutOfMemory;
    };
    arrived(inbox.on_incoming_transfer(transfer, payload))
}

// What the answer to a transfer shows.
pub(crate) fn arrived(answer: Result<Arrived, RefusedTransfer>) -> Seen {
    match answer {
        Ok(came) => {
            let seen = seen_of(&came);
            drop(came);
            seen
        }
        Err(refused) => match refused.into_error() {
            ReceiverTransferError::OutOfMemory => Seen::OutOfMemory,
            error => {
                drop(error);
                Seen::Refused
            }
        },
    }
}

pub(crate) fn bytes_are(delivery: Delivery<Whole>, bytes: &[u8]) -> Seen {
    let are = delivery.body().0.as_slice() == bytes;
    drop(delivery);
    Seen::Taken(are)
}

pub(crate) fn why_not_taken(error: TakeError) -> Seen {
    let why = match &error {
        TakeError::UnknownTag => Untaken::Unknown,
        TakeError::NotComplete => Untaken::NotComplete,
        TakeError::AlreadyTaken => Untaken::Already,
        TakeError::OutOfMemory => return Seen::OutOfMemory,
        _ => Untaken::Other,
    };
    drop(error);
    Seen::NotTaken(why)
}

fn take(alloc: Global, inbox: &mut Inbox<Target>, byte: u8, bytes: &[u8]) -> Seen {
    let Ok(tag) = tag_of(alloc, byte) else {
        return Seen::OutOfMemory;
    };
    let answer = inbox.take::<Whole>(&tag);
    drop(tag);
    match answer {
        Ok(delivery) => bytes_are(delivery, bytes),
        Err(error) => why_not_taken(error),
    }
}

fn take_settled(inbox: &mut Inbox<Target>, bytes: &[u8]) -> Seen {
    match inbox.take_settled::<Whole>() {
        Ok(Some(delivery)) => bytes_are(delivery, bytes),
        Ok(None) => Seen::Done,
        Err(error) => why_not_taken(error),
    }
}

pub(crate) fn disposed(error: DisposeError) -> Seen {
    match error {
        DisposeError::OutOfMemory => Seen::OutOfMemory,
        error => Seen::NotDisposed(error),
    }
}

pub(crate) fn first_of(frame: &LinkFrame) -> Option<u32> {
    match frame {
        LinkFrame::Disposition(disposition) => Some(disposition.first),
        _ => None,
    }
}

fn accept(alloc: Global, inbox: &mut Inbox<Target>, byte: u8) -> Seen {
    let Ok(tag) = tag_of(alloc, byte) else {
        return Seen::OutOfMemory;
    };
    let answer = inbox.dispose(&tag, Some(true), DeliveryState::Accepted, false);
    drop(tag);
    match answer {
        Ok(frame) => {
            let first = first_of(&frame);
            drop(frame);
            Seen::Sent(first)
        }
        Err(error) => disposed(error),
    }
}

pub(crate) fn tags_of(alloc: Global, bytes: &[u8]) -> Result<Vec<DeliveryTag>, AllocError> {
    let mut tags = Vec::new(alloc);
    for byte in bytes {
        tags.push(tag_of(alloc, *byte)?)?;
    }
    Ok(tags)
}

fn accept_all(alloc: Global, inbox: &mut Inbox<Target>, bytes: &[u8]) -> Seen {
    let Ok(tags) = tags_of(alloc, bytes) else {
        return Seen::OutOfMemory;
    };
    let answer = inbox.dispose_all(tags.as_slice(), Some(true), DeliveryState::Accepted, false);
    drop(tags);
    match answer {
        Ok(frames) => {
            let count = frames.len();
            drop(frames);
            Seen::Frames(count)
        }
        Err(error) => disposed(error),
    }
}

fn keep(alloc: Global, inbox: &mut Inbox<Target>, byte: u8) -> Seen {
    let Ok(tag) = tag_of(alloc, byte) else {
        return Seen::OutOfMemory;
    };
    let answer = inbox.keep_outcome(&tag, DeliveryState::Accepted);
    drop(tag);
    match answer {
        Ok(()) => Seen::Done,
        Err(error) => disposed(error),
    }
}

pub(crate) fn make(alloc: Global, inbox: &mut Inbox<Target>, call: Call) -> Seen {
    match call {
        Call::Attach(stated) => attach(alloc, inbox, stated, false),
        Call::AttachInPart(stated) => attach(alloc, inbox, stated, true),
        Call::Cut => {
            inbox.on_session_lost();
            Seen::Done
        }
        Call::Grant(window) => grant(inbox, window),
        Call::Come(frame, bytes, more) => arrive(alloc, inbox, frame, bytes, more),
        Call::Take(byte, bytes) => take(alloc, inbox, byte, bytes),
        Call::TakeSettled(bytes) => take_settled(inbox, bytes),
        Call::Accept(byte) => accept(alloc, inbox, byte),
        Call::AcceptAll(bytes) => accept_all(alloc, inbox, bytes),
        Call::Keep(byte) => keep(alloc, inbox, byte),
    }
}

// What an inbox shows: its link-credit, how many deliveries its link states, and how many that are settled wait.
pub(crate) fn standing(inbox: &Inbox<Target>) -> (u32, usize, usize) {
    let credit = inbox.link().flow_state().link_credit();
    (credit, inbox.link().unsettled().len(), inbox.settled_len())
}

// Makes a call; one that is out of memory leaves what the inbox shows, and is made again.
fn again(rt: &(impl Abort + AllocGlobal), inbox: &mut Inbox<Target>, call: Call) -> Seen {
    let before = standing(inbox);
    let seen = make(rt.alloc(), inbox, call);
    if seen != Seen::OutOfMemory {
        return seen;
    }
    assert_equal_at(rt, &standing(inbox), &before, &call);
    make(rt.alloc(), inbox, call)
}

// Makes the calls of a script on a new inbox.
pub(crate) fn expect_script(rt: &(impl Abort + AllocGlobal), script: &[Row]) {
    let mut inbox = new_inbox(rt);
    for (call, wanted, credit, stated) in script {
        let seen = again(rt, &mut inbox, *call);
        assert_equal_at(rt, &seen, wanted, call);
        let (left, entries, _) = standing(&inbox);
        assert_equal_at(rt, &(left, entries), &(*credit, *stated), call);
    }
    drop(inbox);
}
