//! What an inbox's calls cost while it keeps many deliveries.
use crate::endpoints::{attach_of_sender, parts};
use crate::measured::Work;
use crate::payloads::message_of;
use crate::refused::{Refused, completed, done};
use crate::unread::Unread;
use amqp_link::inbox::Arrived;
use amqp_link::types::{
    Attach, DeliveryState, DeliveryTag, OutputHandle, Payload, Target, Transfer, UnsettledMap,
};
use amqp_link::{Inbox, LinkDetach, LinkExt, SenderLink};
use std::alloc::Global;

fn tag_of(alloc: Global, id: u32) -> Result<DeliveryTag, Refused> {
    Ok(DeliveryTag::copied(alloc, &id.to_be_bytes())?)
}

// The attach of a sender that states deliveries with so many tags.
fn attach_with(alloc: Global, count: u32) -> Result<Attach, Refused> {
    let mut map = UnsettledMap::new(alloc);
    for id in 0..count {
        drop(map.put(tag_of(alloc, id)?, None)?);
    }
    let sender = SenderLink::<Target>::new(alloc, parts(alloc, 512));
    let mut sender = sender.with_output_handle(OutputHandle(0));
    let attach = attach_of_sender(&mut sender);
    drop(sender);
    let mut attach = attach?;
    attach.unsettled = Some(map);
    Ok(attach)
}

// An inbox that keeps deliveries, each taken and unsettled.
#[derive(Drop)]
struct Kept {
    alloc: Global,
    inbox: Inbox<Target>,
    payload: Payload,
}

impl Kept {
    // So many deliveries of 64 bytes, with the ids from 0 on.
    fn ready(alloc: Global, count: u32) -> Result<Kept, Refused> {
        let inbox = Inbox::new(alloc, parts(alloc, u32::MAX));
        let mut kept = Kept {
            alloc,
            inbox: inbox.with_output_handle(OutputHandle(0)),
            payload: message_of(alloc, 64)?,
        };
        let answer = kept.fill(count);
        completed(kept, answer)
    }

    fn fill(&mut self, count: u32) -> Result<(), Refused> {
        let theirs = attach_with(self.alloc, 0)?;
        self.attach(theirs)?;
        drop(done(self.inbox.send_flow(Some(u32::MAX), None, false, false))?);
        for id in 0..count {
            drop(self.receive(id)?);
        }
        Ok(())
    }

    // Both attaches; returns how many deliveries are unsettled.
    fn attach(&mut self, theirs: Attach) -> Result<u64, Refused> {
        drop(done(self.inbox.send_attach(false))?);
        let (_, forgotten) = done(self.inbox.on_incoming_attach(theirs))?;
        drop(forgotten);
        Ok(self.inbox.link().unsettled().len() as u64)
    }

    // A delivery arrives in one transfer, and is taken.
    fn receive(&mut self, id: u32) -> Result<DeliveryTag, Refused> {
        let transfer = Transfer {
            delivery_id: Some(id),
            delivery_tag: Some(tag_of(self.alloc, id)?),
            ..Transfer::default()
        };
        let payload = self.payload.clone()?;
        let arrived = done(self.inbox.on_incoming_transfer(transfer, payload))?;
        let Arrived { tag, session, .. } = arrived;
        drop(session);
        let Some(tag) = tag else {
            return Err(Refused);
        };
        drop(done(self.inbox.take::<Unread>(&tag))?);
        Ok(tag)
    }

    // A transfer arrives, with 64 bytes.
    fn receive_part(&mut self, transfer: Transfer) -> Result<(), Refused> {
        let payload = self.payload.clone()?;
        drop(done(self.inbox.on_incoming_transfer(transfer, payload))?);
        Ok(())
    }

    fn settle(&mut self, tag: &DeliveryTag) -> Result<(), Refused> {
        let accepted = DeliveryState::Accepted;
        drop(done(self.inbox.dispose(tag, Some(true), accepted, false))?);
        Ok(())
    }
}

/// Deliveries of 64 bytes arrive, are taken and settled, while so many others are kept.
#[derive(Drop)]
pub struct Keeping {
    kept: Kept,
    first: u32,
    count: u32,
}

impl Keeping {
    /// While `kept` others are kept, `count` deliveries.
    pub fn ready(alloc: Global, kept: u32, count: u32) -> Result<Keeping, Refused> {
        Ok(Keeping {
            kept: Kept::ready(alloc, kept)?,
            first: kept,
            count,
        })
    }
}

impl Work for Keeping {
    fn perform(&mut self) -> Result<u64, Refused> {
        let mut settled = 0u64;
        for number in 0..self.count {
            let tag = self.kept.receive(self.first.wrapping_add(number))?;
            let answer = self.kept.settle(&tag);
            drop(tag);
            answer?;
            settled = settled.wrapping_add(1);
        }
        Ok(settled)
    }
}

/// The frames of one delivery arrive, with 64 bytes each.
#[derive(Drop)]
pub struct Streaming {
    kept: Kept,
    frames: u32,
}

impl Streaming {
    /// So many frames.
    pub fn ready(alloc: Global, frames: u32) -> Result<Streaming, Refused> {
        let kept = Kept::ready(alloc, 0)?;
        Ok(Streaming { kept, frames })
    }
}

// A transfer of the delivery: the first one, or a further one.
fn part(alloc: Global, is_first: bool, more: bool) -> Result<Transfer, Refused> {
    let delivery_tag = if is_first {
        Some(tag_of(alloc, 0)?)
    } else {
        None
    };
    Ok(Transfer {
        delivery_id: Some(0),
        delivery_tag,
        more,
        ..Transfer::default()
    })
}

impl Work for Streaming {
    fn perform(&mut self) -> Result<u64, Refused> {
        let last = self.frames.saturating_sub(1);
        for number in 0..self.frames {
            let transfer = part(self.kept.alloc, number == 0, number != last)?;
            self.kept.receive_part(transfer)?;
        }
        Ok(u64::from(self.frames))
    }
}

/// A session is lost, and both attaches are exchanged again: the sender states all deliveries that are kept.
#[derive(Drop)]
pub struct Reattaching {
    kept: Kept,
    theirs: Option<Attach>,
}

impl Reattaching {
    /// With so many deliveries.
    pub fn ready(alloc: Global, count: u32) -> Result<Reattaching, Refused> {
        let theirs = attach_with(alloc, count)?;
        Ok(Reattaching {
            kept: Kept::ready(alloc, count)?,
            theirs: Some(theirs),
        })
    }
}

impl Work for Reattaching {
    fn perform(&mut self) -> Result<u64, Refused> {
        let Some(theirs) = self.theirs.take() else {
            return Err(Refused);
        };
        self.kept.inbox.on_session_lost();
        *self.kept.inbox.output_handle_mut() = Some(OutputHandle(0));
        self.kept.attach(theirs)
    }
}
