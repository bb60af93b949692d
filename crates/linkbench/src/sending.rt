//! Payloads that are split, registered and sent.
use crate::endpoints::{Endpoints, attached};
use crate::measured::Work;
use crate::payloads::message_of;
use crate::refused::{Refused, done};
use amqp_link::delivery::Settlement;
use amqp_link::frame::LinkFrame;
use amqp_link::types::{DeliveryState, DeliveryTag, Payload, Target, Transfer};
use amqp_link::{SenderLink, Sending, Waiting};
use std::alloc::Global;

/// Sends a payload; returns the delivery's tag and its frames.
pub fn send(
    sender: &mut SenderLink<Target>,
    payload: &Payload,
) -> Result<(DeliveryTag, Vec<LinkFrame>), Refused> {
    match done(sender.send_payload(Waiting::Nothing, payload, 0, Some(false), None, false))? {
        Sending::Sent { settlement, frames } => match settlement {
            Settlement::Unsettled(tag) | Settlement::Settled(tag) => Ok((tag, frames)),
        },
        Sending::CreditMissing => Err(Refused),
    }
}

/// The receiver's disposition arrives at the sender: it has accepted the delivery.
pub fn accept(sender: &mut SenderLink<Target>, tag: &DeliveryTag) -> u64 {
    let answer = sender.on_incoming_disposition(true, Some(DeliveryState::Accepted), tag);
    let resolved = answer.outcome.is_some();
    drop(answer);
    u64::from(resolved)
}

/// What a session writes and reads of frames that are sent: their transfers, the first with this delivery-id.
pub fn transfers_of(
    alloc: Global,
    frames: Vec<LinkFrame>,
    id: u32,
) -> Result<Vec<(Transfer, Payload)>, Refused> {
    let mut transfers = Vec::with_capacity(alloc, frames.len())?;
    for frame in frames {
        if let Some(transfer) = transfer_of(frame, id) {
            transfers.push(transfer)?;
        }
    }
    Ok(transfers)
}

fn transfer_of(frame: LinkFrame, id: u32) -> Option<(Transfer, Payload)> {
    match frame {
        LinkFrame::FirstTransfer(mut first) => {
            first.performative.delivery_id = Some(id);
            Some((first.performative, first.payload))
        }
        LinkFrame::TransferContinuation(further) => Some((further.performative, further.payload)),
        other => {
            drop(other);
            None
        }
    }
}

/// Deliveries are split and registered, each accepted before the next.
#[derive(Drop)]
pub struct Splitting {
    ends: Endpoints,
    payload: Payload,
    count: u32,
}

impl Splitting {
    /// So many deliveries of this length.
    pub fn ready(
        alloc: Global,
        length: usize,
        limit: u32,
        count: u32,
    ) -> Result<Splitting, Refused> {
        let payload = message_of(alloc, length)?;
        let ends = attached(alloc, limit)?;
        Ok(Splitting {
            ends,
            payload,
            count,
        })
    }
}

impl Work for Splitting {
    fn perform(&mut self) -> Result<u64, Refused> {
        let mut transfers = 0u64;
        for _ in 0..self.count {
            let (tag, frames) = send(&mut self.ends.sender, &self.payload)?;
            transfers = transfers.wrapping_add(frames.len() as u64);
            drop(frames);
            accept(&mut self.ends.sender, &tag);
            drop(tag);
        }
        Ok(transfers)
    }
}
