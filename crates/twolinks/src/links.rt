//! The two link endpoints: a sender that records what became of each delivery, and a receiver that keeps what has arrived.
use crate::session::Session;
use amqp_link::inbox::Arrived;
use amqp_link::resumption::{ResumingDelivery, Step, resume_next};
use amqp_link::sender_link::SenderAttachExchange;
use amqp_link::types::{Attach, DataBody, OutputHandle, Source, Target, Text};
use amqp_link::{
    Delivery, DeliveryState, DeliveryTag, Inbox, LinkAttach, LinkDetach, LinkExt, LinkFrame,
    LinkParts, OutcomeLedger, Payload, SenderLink, Sending, Waiting,
};
use program_support::{Refused, done};
use std::alloc::{AllocError, Global};
use std::collections::VecDeque;

// What both endpoints state of the link. A frame has at most 64 bytes behind the four of its size.
fn parts(alloc: Global) -> Result<LinkParts<Target>, AllocError> {
    let name = Text::from(String::from_str(alloc, "letters")?);
    let (source, target) = (Source::default(), Target::default());
    Ok(LinkParts::new(name, Some(source), Some(target), 64))
}

/// A sender that is not attached.
pub fn new_sender(alloc: Global) -> Result<OutcomeLedger<Target>, Refused> {
    let link = SenderLink::new(alloc, parts(alloc)?);
    done(OutcomeLedger::new(alloc, link))
}

/// A receiver that is not attached.
pub fn new_receiver(alloc: Global) -> Result<Inbox<Target>, Refused> {
    Ok(Inbox::new(alloc, parts(alloc)?))
}

fn attach_in(frame: LinkFrame) -> Result<Attach, Refused> {
    match frame {
        LinkFrame::Attach(attach) => Ok(attach.into_inner()),
        _ => Err(Refused),
    }
}

// The sender's attach, at the handle that its session has given.
fn sender_attach(sender: &mut OutcomeLedger<Target>) -> Result<Attach, Refused> {
    *sender.output_handle_mut() = Some(OutputHandle(0));
    let (frame, outcomes) = done(sender.send_attach(false))?;
    drop(outcomes);
    attach_in(frame)
}

fn receiver_attach(receiver: &mut Inbox<Target>) -> Result<Attach, Refused> {
    *receiver.output_handle_mut() = Some(OutputHandle(0));
    attach_in(done(receiver.send_attach(false))?)
}

/// The deliveries to send again after an attach, each with its tag.
pub type ToResume = VecDeque<(DeliveryTag, ResumingDelivery)>;

fn take_receiver_attach(
    alloc: Global,
    sender: &mut OutcomeLedger<Target>,
    attach: Attach,
) -> Result<ToResume, Refused> {
    let (exchange, outcomes) = done(sender.on_incoming_attach(attach))?;
    drop(outcomes);
    Ok(match exchange {
        SenderAttachExchange::Complete => VecDeque::new(alloc),
        SenderAttachExchange::IncompleteUnsettled(list) | SenderAttachExchange::Resume(list) => {
            VecDeque::from_vec(list.into_vec())
        }
    })
}

/// Both endpoints send their attach, and each takes the other's.
pub fn attach(
    alloc: Global,
    sender: &mut OutcomeLedger<Target>,
    receiver: &mut Inbox<Target>,
) -> Result<ToResume, Refused> {
    let from_sender = sender_attach(sender)?;
    let from_receiver = receiver_attach(receiver)?;
    drop(done(receiver.on_incoming_attach(from_sender))?);
    take_receiver_attach(alloc, sender, from_receiver)
}

/// The receiver lets the sender begin so many deliveries.
pub fn grant(
    sender: &mut OutcomeLedger<Target>,
    receiver: &mut Inbox<Target>,
    credit: u32,
) -> Result<(), Refused> {
    match done(receiver.send_flow(Some(credit), None, false, false))? {
        LinkFrame::Flow(flow) => {
            drop(done(sender.on_incoming_flow(flow))?);
            Ok(())
        }
        _ => Err(Refused),
    }
}

/// The frames of a new delivery.
pub fn send(
    sender: &mut OutcomeLedger<Target>,
    payload: &Payload,
) -> Result<Vec<LinkFrame>, Refused> {
    match done(sender.send_payload(Waiting::Nothing, payload, 0, None, None, false))? {
        Sending::Sent { frames, .. } => Ok(frames),
        Sending::CreditMissing => Err(Refused),
    }
}

/// The frames of the first delivery of the list, which is sent again; none if the list is empty.
pub fn resume(
    sender: &mut OutcomeLedger<Target>,
    list: &mut ToResume,
) -> Result<Option<Vec<LinkFrame>>, Refused> {
    match done(resume_next(sender, list))? {
        Step::Sent(frames) => Ok(Some(frames)),
        Step::Nothing => Ok(None),
        _ => Err(Refused),
    }
}

/// A frame of the sender's arrives at the receiver.
pub fn arrive(
    session: &mut Session,
    receiver: &mut Inbox<Target>,
    frame: LinkFrame,
) -> Result<Arrived, Refused> {
    let (transfer, payload) = session.carry(frame)?;
    done(receiver.on_incoming_transfer(transfer, payload))
}

/// The receiver's user takes a complete delivery.
pub fn take(
    receiver: &mut Inbox<Target>,
    tag: &DeliveryTag,
) -> Result<Delivery<DataBody>, Refused> {
    done(receiver.take(tag))
}

/// The receiver accepts a delivery, which settles it at both endpoints.
pub fn accept(
    session: &Session,
    sender: &mut OutcomeLedger<Target>,
    receiver: &mut Inbox<Target>,
    tag: &DeliveryTag,
) -> Result<(), Refused> {
    let frame = done(receiver.dispose(tag, Some(true), DeliveryState::Accepted, false))?;
    let LinkFrame::Disposition(disposition) = frame else {
        return Err(Refused);
    };
    let Some(named) = session.tag_of(disposition.first) else {
        return Err(Refused);
    };
    let answer = sender.on_incoming_disposition(disposition.settled, disposition.state, named);
    drop(done(answer)?);
    Ok(())
}

/// The connection is lost, and the session with it: no frame says so.
pub fn lose_session(sender: &mut OutcomeLedger<Target>, receiver: &mut Inbox<Target>) {
    sender.on_session_lost();
    receiver.on_session_lost();
}
