//! Whole runs of a pair.
use crate::measured::Work;
use crate::payloads::message_of;
use crate::refused::{Refused, completed, done};
use crate::unread::Unread;
use amqp_link::LinkExt;
use amqp_link::pair::{OrAborted, Pair};
use amqp_link::types::{DeliveryTag, Payload};
use std::alloc::Global;

/// A delivery is sent, cut off after its first transfer, resumed, handed out and settled.
#[derive(Drop)]
pub struct Walking {
    pair: Pair,
    payload: Payload,
    limit: u32,
    count: u32,
}

impl Walking {
    /// So many deliveries of this length.
    pub fn ready(alloc: Global, length: usize, limit: u32, count: u32) -> Result<Walking, Refused> {
        let payload = message_of(alloc, length)?;
        let pair = done(Pair::new(alloc, 0))?;
        Ok(Walking {
            pair,
            payload,
            limit,
            count,
        })
    }
}

impl Work for Walking {
    fn perform(&mut self) -> Result<u64, Refused> {
        let mut offsets = 0u64;
        for _ in 0..self.count {
            offsets = offsets.wrapping_add(walk(&mut self.pair, &self.payload, self.limit)?);
        }
        Ok(offsets)
    }
}

// One delivery; returns the offset that was reached.
fn walk(pair: &mut Pair, payload: &Payload, limit: u32) -> Result<u64, Refused> {
    begin(pair, limit)?;
    let tag = send(pair, payload)?;
    let offset = resume(pair, limit);
    let settled = settle(pair, &tag);
    drop(tag);
    settled?;
    offset
}

// Attaches the link, and grants credit for the delivery as it is sent, and as it is handed out.
fn begin(pair: &mut Pair, limit: u32) -> Result<(), Refused> {
    done(pair.attach(limit))?;
    done(pair.grant(2))?;
    Ok(())
}

// Sends a payload, of which the first transfer arrives.
fn send(pair: &mut Pair, payload: &Payload) -> Result<DeliveryTag, Refused> {
    let sent = done(pair.send(payload))?;
    let tag = sent.tag;
    match pair.arrive(0) {
        Ok(arrived) => {
            drop(arrived);
            Ok(tag)
        }
        Err(_) => {
            drop(tag);
            Err(Refused)
        }
    }
}

// Cuts the link and attaches it again; the rest of the delivery arrives.
fn resume(pair: &mut Pair, limit: u32) -> Result<u64, Refused> {
    done(pair.cut())?;
    done(pair.attach(limit))?;
    let frames = send_rest(pair)?;
    let mut offset = 0u64;
    for _ in 0..frames {
        offset = arrive(pair)?;
    }
    Ok(offset)
}

// Sends the rest of the delivery; how many transfers carry it.
fn send_rest(pair: &mut Pair) -> Result<usize, Refused> {
    let next = done(pair.resume_next())?;
    let frames = match &next {
        OrAborted::Answer(resumed) => Ok(resumed.frames),
        OrAborted::Aborted(_) => Err(Refused),
    };
    drop(next);
    frames
}

// The next transfer arrives; the offset that is reached.
fn arrive(pair: &mut Pair) -> Result<u64, Refused> {
    let came = done(pair.arrive(0))?;
    let offset = match &came {
        OrAborted::Answer(arrived) => Ok(arrived.section_offset),
        OrAborted::Aborted(_) => Err(Refused),
    };
    drop(came);
    offset
}

// Hands the delivery out and settles it.
fn take(pair: &mut Pair, tag: &DeliveryTag) -> Result<(), Refused> {
    drop(done(pair.hand_out::<Unread>(tag))?);
    done(pair.settle(tag))
}

// Hands the delivery out and settles it, and cuts the link.
fn settle(pair: &mut Pair, tag: &DeliveryTag) -> Result<(), Refused> {
    take(pair, tag)?;
    done(pair.cut())
}

/// Deliveries of 64 bytes are sent, arrive, are handed out and settled, while so many are pending.
#[derive(Drop)]
pub struct Holding {
    alloc: Global,
    pair: Pair,
    payload: Payload,
    // The number of the delivery that is settled next.
    oldest: u32,
    count: u32,
}

impl Holding {
    /// So many that are pending, and so many that are sent and settled beside them.
    pub fn ready(alloc: Global, size: u32, limit: u32, count: u32) -> Result<Holding, Refused> {
        let payload = message_of(alloc, 64)?;
        let mut holding = Holding {
            alloc,
            pair: done(Pair::new(alloc, 0))?,
            payload,
            oldest: 0,
            count,
        };
        let answer = holding.fill(size, limit);
        completed(holding, answer)
    }

    fn fill(&mut self, size: u32, limit: u32) -> Result<(), Refused> {
        done(self.pair.attach(limit))?;
        done(self.pair.grant(u32::MAX))?;
        for _ in 0..size {
            self.send()?;
        }
        Ok(())
    }

    fn send(&mut self) -> Result<(), Refused> {
        drop(done(self.pair.send(&self.payload))?);
        drop(done(self.pair.arrive(0))?);
        Ok(())
    }

    fn settle_oldest(&mut self) -> Result<(), Refused> {
        let tag = DeliveryTag::copied(self.alloc, &self.oldest.to_be_bytes())?;
        self.oldest = self.oldest.wrapping_add(1);
        let settled = take(&mut self.pair, &tag);
        drop(tag);
        settled
    }
}

impl Work for Holding {
    fn perform(&mut self) -> Result<u64, Refused> {
        for _ in 0..self.count {
            self.send()?;
            self.settle_oldest()?;
        }
        Ok(self.pair.receiver().unsettled().len() as u64)
    }
}
