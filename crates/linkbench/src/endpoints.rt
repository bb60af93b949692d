//! The two endpoints of a link.
use crate::refused::{Refused, completed, done};
use amqp_link::types::{Attach, OutputHandle, Source, Target, Text};
use amqp_link::{LinkAttach, LinkDetach, LinkExt, LinkFrame, LinkParts, ReceiverLink, SenderLink};
use std::alloc::Global;

/// The endpoints of a link, with nothing between them.
#[derive(Drop)]
pub struct Endpoints {
    pub sender: SenderLink<Target>,
    pub receiver: ReceiverLink<Target>,
}

/// The endpoints of a new link, attached, with all the credit there is, and this frame limit.
pub fn attached(alloc: Global, limit: u32) -> Result<Endpoints, Refused> {
    let sender = SenderLink::new(alloc, parts(alloc, limit));
    let receiver = ReceiverLink::new(alloc, parts(alloc, limit));
    let mut ends = Endpoints {
        sender: sender.with_output_handle(OutputHandle(0)),
        receiver: receiver.with_output_handle(OutputHandle(0)),
    };
    let answer = open(&mut ends);
    completed(ends, answer)
}

/// A link without a name, for which nothing is allocated.
pub fn parts(alloc: Global, limit: u32) -> LinkParts<Target> {
    let name = Text::from(String::new(alloc));
    LinkParts::new(
        name,
        Some(Source::default()),
        Some(Target::default()),
        limit,
    )
}

fn open(ends: &mut Endpoints) -> Result<(), Refused> {
    attach(ends)?;
    grant(ends)
}

fn attach(ends: &mut Endpoints) -> Result<(), Refused> {
    let asked = attach_of_sender(&mut ends.sender)?;
    drop(done(ends.receiver.on_incoming_attach(asked))?);
    let answered = attach_of_receiver(&mut ends.receiver)?;
    drop(done(ends.sender.on_incoming_attach(answered))?);
    Ok(())
}

/// The attach that a sender sends.
pub fn attach_of_sender(sender: &mut SenderLink<Target>) -> Result<Attach, Refused> {
    let (frame, resolved) = done(sender.send_attach(false))?;
    drop(resolved);
    attach_in(frame)
}

/// The attach that a receiver sends.
pub fn attach_of_receiver(receiver: &mut ReceiverLink<Target>) -> Result<Attach, Refused> {
    let (frame, resolved) = done(receiver.send_attach(false))?;
    drop(resolved);
    attach_in(frame)
}

fn attach_in(frame: LinkFrame) -> Result<Attach, Refused> {
    match frame {
        LinkFrame::Attach(attach) => Ok(attach.into_inner()),
        other => {
            drop(other);
            Err(Refused)
        }
    }
}

fn grant(ends: &mut Endpoints) -> Result<(), Refused> {
    match done(ends.receiver.send_flow(Some(u32::MAX), None, false, false))? {
        LinkFrame::Flow(flow) => {
            drop(done(ends.sender.on_incoming_flow(flow))?);
            Ok(())
        }
        other => {
            drop(other);
            Err(Refused)
        }
    }
}

/// Both endpoints lose their session, and may attach again with what is unsettled.
pub fn cut(ends: &mut Endpoints) {
    lose_session(&mut ends.sender);
    lose_session(&mut ends.receiver);
}

// An endpoint loses its session, and has a handle for its next attach.
fn lose_session<L: LinkDetach + LinkExt>(link: &mut L) {
    link.on_session_lost();
    *link.output_handle_mut() = Some(OutputHandle(0));
}
