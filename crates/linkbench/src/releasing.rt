//! A ledger that releases what became of its deliveries, and one that sends a delivery of many frames.
use crate::endpoints::{Endpoints, attached};
use crate::measured::Work;
use crate::payloads::message_of;
use crate::refused::{Refused, done};
use amqp_link::delivery::Settlement;
use amqp_link::types::{DeliveryState, DeliveryTag, Payload, Target};
use amqp_link::{OutcomeLedger, Sending, Waiting};
use std::alloc::Global;

/// Deliveries of 64 bytes are sent, each accepted before the next. After each so many, what became of them is released.
#[derive(Drop)]
pub struct Releasing {
    ledger: OutcomeLedger<Target>,
    payload: Payload,
    every: usize,
    count: u32,
}

impl Releasing {
    /// After each `every` of `count` deliveries.
    pub fn ready(alloc: Global, every: usize, count: u32) -> Result<Releasing, Refused> {
        let payload = message_of(alloc, 64)?;
        let Endpoints { sender, receiver } = attached(alloc, 512)?;
        drop(receiver);
        let ledger = done(OutcomeLedger::new(alloc, sender))?;
        Ok(Releasing {
            ledger,
            payload,
            every,
            count,
        })
    }
}

// What a frame of 512 bytes has room for beside the longest transfer.
const ROOM: usize = 487;

/// A payload is sent in so many frames.
#[derive(Drop)]
pub struct Framing {
    ledger: OutcomeLedger<Target>,
    payload: Payload,
}

impl Framing {
    /// In `frames` frames of at most 512 bytes.
    pub fn ready(alloc: Global, frames: usize) -> Result<Framing, Refused> {
        let payload = message_of(alloc, frames.saturating_mul(ROOM))?;
        let Endpoints { sender, receiver } = attached(alloc, 512)?;
        drop(receiver);
        let ledger = done(OutcomeLedger::new(alloc, sender))?;
        Ok(Framing { ledger, payload })
    }
}

impl Work for Framing {
    fn perform(&mut self) -> Result<u64, Refused> {
        let sending = self.ledger.send_payload(
            Waiting::Nothing,
            &self.payload,
            0,
            Some(false),
            None,
            false,
        );
        match done(sending)? {
            Sending::Sent { settlement, frames } => {
                drop(settlement);
                let count = frames.len() as u64;
                drop(frames);
                Ok(count)
            }
            Sending::CreditMissing => Err(Refused),
        }
    }
}

fn send(ledger: &mut OutcomeLedger<Target>, payload: &Payload) -> Result<DeliveryTag, Refused> {
    match done(ledger.send_payload(Waiting::Nothing, payload, 0, Some(false), None, false))? {
        Sending::Sent { settlement, frames } => {
            drop(frames);
            match settlement {
                Settlement::Unsettled(tag) | Settlement::Settled(tag) => Ok(tag),
            }
        }
        Sending::CreditMissing => Err(Refused),
    }
}

fn accept(ledger: &mut OutcomeLedger<Target>, tag: &DeliveryTag) -> Result<(), Refused> {
    let accepted = Some(DeliveryState::Accepted);
    drop(done(ledger.on_incoming_disposition(true, accepted, tag))?);
    Ok(())
}

// Sends a delivery that is accepted.
fn deliver(ledger: &mut OutcomeLedger<Target>, payload: &Payload) -> Result<(), Refused> {
    let tag = send(ledger, payload)?;
    let answer = accept(ledger, &tag);
    drop(tag);
    answer
}

impl Work for Releasing {
    fn perform(&mut self) -> Result<u64, Refused> {
        let mut ended = 0usize;
        for _ in 0..self.count {
            deliver(&mut self.ledger, &self.payload)?;
            ended = ended.wrapping_add(1);
            if ended % self.every.max(1) == 0 {
                done(self.ledger.release(ended))?;
            }
        }
        Ok(ended as u64)
    }
}
