//! Links that are attached again, with deliveries that are unsettled at both endpoints.
use crate::endpoints::{Endpoints, attach_of_receiver, attach_of_sender, attached, cut};
use crate::measured::Work;
use crate::payloads::message_of;
use crate::refused::{Refused, completed, done};
use crate::sending::send;
use amqp_link::LinkAttach;
use amqp_link::sender_link::SenderAttachExchange;
use amqp_link::types::Attach;
use std::alloc::Global;

// The endpoints of a link that was cut, with so many deliveries; the receiver holds the first half of each.
fn interrupted(alloc: Global, count: u32) -> Result<Endpoints, Refused> {
    let mut ends = attached(alloc, u32::MAX)?;
    let answer = interrupt(&mut ends, alloc, count);
    completed(ends, answer)
}

fn interrupt(ends: &mut Endpoints, alloc: Global, count: u32) -> Result<(), Refused> {
    send_halves(ends, alloc, count)?;
    cut(ends);
    Ok(())
}

// Sends so many deliveries, of which the receiver holds the first half each.
fn send_halves(ends: &mut Endpoints, alloc: Global, count: u32) -> Result<(), Refused> {
    let payload = message_of(alloc, 64)?;
    for _ in 0..count {
        let (tag, frames) = send(&mut ends.sender, &payload)?;
        drop(frames);
        let held = ends.receiver.on_incomplete_transfer(&tag, 0, 32);
        drop(tag);
        held?;
    }
    drop(payload);
    Ok(())
}

/// Both endpoints state their unsettled deliveries in an attach.
#[derive(Drop)]
pub struct Attaching(Endpoints);

impl Attaching {
    /// So many deliveries.
    pub fn ready(alloc: Global, count: u32) -> Result<Attaching, Refused> {
        Ok(Attaching(interrupted(alloc, count)?))
    }
}

impl Work for Attaching {
    fn perform(&mut self) -> Result<u64, Refused> {
        let ours = entries_of(attach_of_sender(&mut self.0.sender)?);
        let theirs = entries_of(attach_of_receiver(&mut self.0.receiver)?);
        Ok(ours.wrapping_add(theirs))
    }
}

// The number of deliveries that an attach states.
fn entries_of(attach: Attach) -> u64 {
    let entries = match &attach.unsettled {
        Some(unsettled) => unsettled.len() as u64,
        None => 0,
    };
    drop(attach);
    entries
}

/// The sender compares its unsettled deliveries with those of the receiver's attach.
#[derive(Drop)]
pub struct Exchanging {
    ends: Endpoints,
    theirs: Option<Attach>,
}

impl Exchanging {
    /// So many deliveries.
    pub fn ready(alloc: Global, count: u32) -> Result<Exchanging, Refused> {
        let mut ends = interrupted(alloc, count)?;
        match attach_both(&mut ends) {
            Ok(theirs) => Ok(Exchanging {
                ends,
                theirs: Some(theirs),
            }),
            Err(refused) => {
                drop(ends);
                Err(refused)
            }
        }
    }
}

// Both endpoints send their attach; returns the receiver's.
fn attach_both(ends: &mut Endpoints) -> Result<Attach, Refused> {
    drop(attach_of_sender(&mut ends.sender)?);
    attach_of_receiver(&mut ends.receiver)
}

impl Work for Exchanging {
    fn perform(&mut self) -> Result<u64, Refused> {
        let Some(theirs) = self.theirs.take() else {
            return Err(Refused);
        };
        let (exchange, outcomes) = done(self.ends.sender.on_incoming_attach(theirs))?;
        drop(outcomes);
        Ok(listed(exchange))
    }
}

// The number of deliveries that are to be resumed.
fn listed(exchange: SenderAttachExchange) -> u64 {
    match exchange {
        SenderAttachExchange::Complete => 0,
        SenderAttachExchange::IncompleteUnsettled(list) | SenderAttachExchange::Resume(list) => {
            let list = list.into_vec();
            let count = list.len() as u64;
            drop(list);
            count
        }
    }
}
