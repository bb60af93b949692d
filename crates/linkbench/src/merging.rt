//! Transfers that are merged, with the position of what is held after each.
use crate::endpoints::attached;
use crate::measured::Work;
use crate::payloads::message_of;
use crate::refused::{Refused, completed, done};
use crate::sending::{send, transfers_of};
use amqp_link::IncompleteTransfer;
use amqp_link::types::{Payload, Transfer};
use std::alloc::Global;
use std::mem;

/// Merges a transfer with those of its delivery that arrived before, by whether it begins a delivery in this
/// attachment.
pub fn merge(
    alloc: Global,
    held: Option<IncompleteTransfer>,
    begins_delivery: bool,
    transfer: Transfer,
    payload: Payload,
) -> Result<IncompleteTransfer, Refused> {
    match held {
        None => done(IncompleteTransfer::start(alloc, transfer, payload)),
        Some(mut held) => {
            done(held.try_add(begins_delivery, transfer, payload))?;
            Ok(held)
        }
    }
}

/// Deliveries are merged from their transfers.
#[derive(Drop)]
pub struct Merging {
    alloc: Global,
    deliveries: Vec<Vec<(Transfer, Payload)>>,
}

impl Merging {
    /// So many deliveries of this length.
    pub fn ready(alloc: Global, length: usize, limit: u32, count: u32) -> Result<Merging, Refused> {
        let payload = message_of(alloc, length)?;
        let mut work = Merging {
            alloc,
            deliveries: Vec::new(alloc),
        };
        let answer = work.send(&payload, limit, count);
        drop(payload);
        completed(work, answer)
    }

    fn send(&mut self, payload: &Payload, limit: u32, count: u32) -> Result<(), Refused> {
        for _ in 0..count {
            self.deliveries.push(sent(self.alloc, payload, limit)?)?;
        }
        Ok(())
    }
}

// The transfers of a delivery of this payload.
fn sent(alloc: Global, payload: &Payload, limit: u32) -> Result<Vec<(Transfer, Payload)>, Refused> {
    let mut ends = attached(alloc, limit)?;
    let sent = send(&mut ends.sender, payload);
    drop(ends);
    let (tag, frames) = sent?;
    drop(tag);
    transfers_of(alloc, frames, 0)
}

impl Work for Merging {
    fn perform(&mut self) -> Result<u64, Refused> {
        let mut offsets = 0u64;
        for transfers in mem::replace(&mut self.deliveries, Vec::new(self.alloc)) {
            offsets = offsets.wrapping_add(merge_all(self.alloc, transfers)?);
        }
        Ok(offsets)
    }
}

// Merges a delivery; returns the sum of the offsets after each transfer.
fn merge_all(alloc: Global, transfers: Vec<(Transfer, Payload)>) -> Result<u64, Refused> {
    let mut offsets = 0u64;
    let mut held = None;
    for (transfer, payload) in transfers {
        let begins = held.is_none();
        let merged = merge(alloc, held.take(), begins, transfer, payload)?;
        offsets = offsets.wrapping_add(merged.section_offset());
        held = Some(merged);
    }
    drop(held);
    Ok(offsets)
}
