//! The calls on an incoming link.
use crate::answers::Answer;
use crate::peers::{payload, sender_attach, tag_of, transfer};
use crate::steps::{Part, Receiving, Tag};
use amqp_link::inbox::{DisposeError, TakeError};
use amqp_link::types::OutputHandle;
use amqp_link::{LinkDetach, LinkExt};
use amqp_link_uses::broker::{Broker, GrantError, SettleError, TakeInError};
use program_support::{Refused, done};
use std::alloc::Global;

/// Makes the call.
pub fn receive(
    alloc: Global,
    broker: &mut Broker,
    link: usize,
    call: Receiving,
) -> Result<Answer, Refused> {
    match call {
        Receiving::SendAttach => send_attach(broker, link),
        Receiving::TakeAttach(count, tags) => take_attach(alloc, broker, link, count, tags),
        Receiving::LoseSession => lose_session(broker, link),
        Receiving::Grant(more) => Ok(granted(broker, link, more)),
        Receiving::TakeTransfer(part, bytes, more) => arrive(
            alloc,
            broker,
            link,
            (part, bytes, more),
        ),
        Receiving::Take(tag) => take(alloc, broker, link, tag),
        Receiving::TakeSettled => take_settled(broker, link),
        Receiving::Settle(tag) => settle(alloc, broker, link, tag),
    }
}

fn send_attach(broker: &mut Broker, link: usize) -> Result<Answer, Refused> {
    let Some(from) = broker.incoming.get_mut(link) else {
        return Err(Refused);
    };
    *from.inbox.output_handle_mut() = Some(OutputHandle(0));
    Ok(Answer::Frame(done(from.inbox.send_attach(false))?))
}

fn take_attach(
    alloc: Global,
    broker: &mut Broker,
    link: usize,
    count: u32,
    tags: &[Tag],
) -> Result<Answer, Refused> {
    let theirs = sender_attach(alloc, link, count, tags)?;
    let Some(from) = broker.incoming.get_mut(link) else {
        drop(theirs);
        return Err(Refused);
    };
    let (exchange, forgotten) = done(from.inbox.on_incoming_attach(theirs))?;
    drop(exchange);
    let count = forgotten.len();
    drop(forgotten);
    Ok(Answer::Forgotten(count))
}

fn lose_session(broker: &mut Broker, link: usize) -> Result<Answer, Refused> {
    let Some(from) = broker.incoming.get_mut(link) else {
        return Err(Refused);
    };
    from.inbox.on_session_lost();
    Ok(Answer::Done)
}

fn granted(broker: &mut Broker, link: usize, more: u32) -> Answer {
    match broker.grant(link, more) {
        Ok(frame) => Answer::Frame(frame),
        Err(GrantError::NoRoom) => Answer::Refused("no room"),
        Err(other) => {
            drop(other);
            Answer::Refused("for another reason")
        }
    }
}

fn arrive(
    alloc: Global,
    broker: &mut Broker,
    link: usize,
    frame: (Part, &[u8], bool),
) -> Result<Answer, Refused> {
    let (part, bytes, more) = frame;
    let mut transfer = transfer(alloc, part)?;
    transfer.more = more;
    let payload = payload(alloc, bytes)?;
    let Some(from) = broker.incoming.get_mut(link) else {
        drop((transfer, payload));
        return Err(Refused);
    };
    let arrived = done(from.inbox.on_incoming_transfer(transfer, payload))?;
    let answer = Answer::Arrived(arrived.arrival, arrived.without_credit);
    drop(arrived);
    Ok(answer)
}

fn untaken(error: TakeInError) -> Result<Answer, Refused> {
    match error {
        TakeInError::NoRoom => Ok(Answer::Refused("no room")),
        TakeInError::Inbox(TakeError::OutOfMemory) => Err(Refused),
        other => {
            drop(other);
            Ok(Answer::Refused("for another reason"))
        }
    }
}

fn take(alloc: Global, broker: &mut Broker, link: usize, bytes: &[u8]) -> Result<Answer, Refused> {
    let tag = tag_of(alloc, bytes)?;
    let taken = broker.take(link, &tag);
    drop(tag);
    match taken {
        Ok(()) => Ok(Answer::Words("queued")),
        Err(error) => untaken(error),
    }
}

fn take_settled(broker: &mut Broker, link: usize) -> Result<Answer, Refused> {
    match broker.take_settled(link) {
        Ok(true) => Ok(Answer::Words("queued")),
        Ok(false) => Ok(Answer::Words("there is none")),
        Err(error) => untaken(error),
    }
}

fn unsettled(error: SettleError) -> Result<Answer, Refused> {
    match error {
        SettleError::NoOutcome => Ok(Answer::Refused("no outcome")),
        SettleError::Inbox(DisposeError::NotAttached) => Ok(Answer::Refused("not attached")),
        SettleError::Inbox(DisposeError::NotResumed) => Ok(Answer::Refused("not resumed")),
        SettleError::Inbox(DisposeError::OutOfMemory) => Err(Refused),
        _ => Ok(Answer::Refused("for another reason")),
    }
}

fn settle(
    alloc: Global,
    broker: &mut Broker,
    link: usize,
    bytes: &[u8],
) -> Result<Answer, Refused> {
    let tag = tag_of(alloc, bytes)?;
    let settled = broker.settle(link, &tag);
    drop(tag);
    match settled {
        Ok(frame) => Ok(Answer::Frame(frame)),
        Err(error) => unsettled(error),
    }
}
