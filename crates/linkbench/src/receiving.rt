//! Deliveries that a receiver receives and settles.
use crate::endpoints::{Endpoints, attached};
use crate::measured::Work;
use crate::merging::merge;
use crate::payloads::message_of;
use crate::refused::{Refused, completed, done};
use crate::sending::{accept, send, transfers_of};
use crate::unread::Unread;
use amqp_link::frame::{LinkFrame, LinkTransfer};
use amqp_link::types::{DeliveryState, Payload, Target, Transfer};
use amqp_link::{Delivery, DeliveryInfo, IncompleteTransfer, ReceiverLink};
use std::alloc::Global;
use std::collections::VecDeque;
use std::mem;

/// Receives a delivery from its transfers; each but the last leaves the position of what is held.
pub fn receive(
    receiver: &mut ReceiverLink<Target>,
    alloc: Global,
    transfers: Vec<(Transfer, Payload)>,
) -> Result<Delivery<Unread>, Refused> {
    let mut held = None;
    for (transfer, payload) in transfers {
        let more = transfer.more;
        let begins = receiver.begins_delivery();
        let arrived = arrive(receiver, transfer, payload)?;
        let merged = merge(
            alloc,
            held.take(),
            begins,
            arrived.performative,
            arrived.payload,
        )?;
        if more {
            let (number, offset) = merged.position();
            receiver.on_incomplete_transfer(merged.delivery_tag(), number, offset)?;
        }
        held = Some(merged);
    }
    match held {
        Some(held) => complete(receiver, held),
        None => Err(Refused),
    }
}

// A transfer arrives at the receiver: what is for the link's user.
fn arrive(
    receiver: &mut ReceiverLink<Target>,
    transfer: Transfer,
    payload: Payload,
) -> Result<LinkTransfer, Refused> {
    let (frame, entry) = done(receiver.on_incoming_transfer(transfer, payload))?;
    drop(entry);
    arrived_in(frame)
}

fn arrived_in(frame: LinkFrame) -> Result<LinkTransfer, Refused> {
    match frame {
        LinkFrame::RemoteTransfer(arrived) => Ok(arrived),
        other => {
            drop(other);
            Err(Refused)
        }
    }
}

fn complete(
    receiver: &mut ReceiverLink<Target>,
    held: IncompleteTransfer,
) -> Result<Delivery<Unread>, Refused> {
    let (number, offset) = held.position();
    let delivery = receiver.on_complete_transfer(
        held.performative(),
        held.pieces(),
        number,
        offset,
    );
    drop(held);
    done(delivery)
}

/// The receiver accepts and settles a delivery, and the sender resolves it; returns how many it has resolved.
pub fn settle(ends: &mut Endpoints, info: &DeliveryInfo) -> Result<u64, Refused> {
    let accepted = DeliveryState::Accepted;
    drop(done(ends.receiver.dispose(info, Some(true), accepted, false))?);
    Ok(accept(&mut ends.sender, info.delivery_tag()))
}

/// Sends a delivery and receives it.
pub fn deliver(
    ends: &mut Endpoints,
    alloc: Global,
    payload: &Payload,
    id: u32,
) -> Result<DeliveryInfo, Refused> {
    let (tag, frames) = send(&mut ends.sender, payload)?;
    drop(tag);
    let transfers = transfers_of(alloc, frames, id)?;
    let delivery = receive(&mut ends.receiver, alloc, transfers)?;
    let (info, message) = delivery.into_parts();
    drop(message);
    Ok(info)
}

/// Large deliveries are received, each accepted before the next.
#[derive(Drop)]
pub struct Receiving {
    alloc: Global,
    ends: Endpoints,
    deliveries: Vec<Vec<(Transfer, Payload)>>,
}

impl Receiving {
    /// So many deliveries of this length.
    pub fn ready(
        alloc: Global,
        length: usize,
        limit: u32,
        count: u32,
    ) -> Result<Receiving, Refused> {
        let mut work = Receiving {
            alloc,
            ends: attached(alloc, limit)?,
            deliveries: Vec::new(alloc),
        };
        let answer = work.send(length, count);
        completed(work, answer)
    }

    fn send(&mut self, length: usize, count: u32) -> Result<(), Refused> {
        let payload = message_of(self.alloc, length)?;
        for id in 0..count {
            let (tag, frames) = send(&mut self.ends.sender, &payload)?;
            drop(tag);
            self.deliveries.push(transfers_of(self.alloc, frames, id)?)?;
        }
        drop(payload);
        Ok(())
    }
}

impl Work for Receiving {
    fn perform(&mut self) -> Result<u64, Refused> {
        let mut resolved = 0u64;
        for transfers in mem::replace(&mut self.deliveries, Vec::new(self.alloc)) {
            let delivery = receive(&mut self.ends.receiver, self.alloc, transfers)?;
            let (info, message) = delivery.into_parts();
            drop(message);
            resolved = resolved.wrapping_add(settle(&mut self.ends, &info)?);
            drop(info);
        }
        Ok(resolved)
    }
}

/// Small deliveries are sent and received while others are unsettled; with each the oldest is settled.
#[derive(Drop)]
pub struct Flowing {
    alloc: Global,
    ends: Endpoints,
    payload: Payload,
    unsettled: VecDeque<DeliveryInfo>,
    id: u32,
    count: u32,
}

impl Flowing {
    /// So many deliveries of 64 bytes, beside so many that are pending.
    pub fn ready(alloc: Global, pending: usize, count: u32) -> Result<Flowing, Refused> {
        let payload = message_of(alloc, 64)?;
        let mut work = Flowing {
            alloc,
            ends: attached(alloc, 512)?,
            payload,
            unsettled: VecDeque::new(alloc),
            id: 0,
            count,
        };
        let answer = work.deliver_all(pending);
        completed(work, answer)
    }

    fn deliver_all(&mut self, pending: usize) -> Result<(), Refused> {
        for _ in 0..pending {
            self.deliver_next()?;
        }
        Ok(())
    }

    fn deliver_next(&mut self) -> Result<(), Refused> {
        let info = deliver(&mut self.ends, self.alloc, &self.payload, self.id)?;
        self.id = self.id.wrapping_add(1);
        self.unsettled.push_back(info)?;
        Ok(())
    }
}

impl Work for Flowing {
    fn perform(&mut self) -> Result<u64, Refused> {
        let mut resolved = 0u64;
        for _ in 0..self.count {
            self.deliver_next()?;
            let Some(oldest) = self.unsettled.pop_front() else {
                return Err(Refused);
            };
            resolved = resolved.wrapping_add(settle(&mut self.ends, &oldest)?);
            drop(oldest);
        }
        Ok(resolved)
    }
}
