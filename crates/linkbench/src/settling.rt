//! Dispositions of many deliveries.
use crate::endpoints::{Endpoints, attached};
use crate::measured::Work;
use crate::payloads::message_of;
use crate::receiving::deliver;
use crate::refused::{Refused, completed, done};
use crate::sending::{accept, send};
use amqp_link::DeliveryInfo;
use amqp_link::types::{DeliveryState, DeliveryTag};
use std::alloc::Global;

/// The sender's deliveries, each with its id.
#[derive(Drop)]
struct Registered {
    ends: Endpoints,
    ids_and_tags: Vec<(u32, DeliveryTag)>,
}

impl Registered {
    // So many deliveries.
    fn ready(alloc: Global, count: u32) -> Result<Registered, Refused> {
        let mut registered = Registered {
            ends: attached(alloc, 512)?,
            ids_and_tags: Vec::new(alloc),
        };
        let answer = registered.send(alloc, count);
        completed(registered, answer)
    }

    fn send(&mut self, alloc: Global, count: u32) -> Result<(), Refused> {
        let payload = message_of(alloc, 64)?;
        for id in 0..count {
            let (tag, frames) = send(&mut self.ends.sender, &payload)?;
            drop(frames);
            self.ids_and_tags.push((id, tag))?;
        }
        drop(payload);
        Ok(())
    }
}

/// Each of a sender's deliveries is resolved by a disposition of its own.
#[derive(Drop)]
pub struct Resolving(Registered);

impl Resolving {
    /// So many deliveries.
    pub fn ready(alloc: Global, count: u32) -> Result<Resolving, Refused> {
        Ok(Resolving(Registered::ready(alloc, count)?))
    }
}

impl Work for Resolving {
    fn perform(&mut self) -> Result<u64, Refused> {
        let mut resolved = 0u64;
        for (_, tag) in self.0.ids_and_tags.as_slice() {
            resolved = resolved.wrapping_add(accept(&mut self.0.ends.sender, tag));
        }
        Ok(resolved)
    }
}

/// A sender settles all its deliveries at once.
#[derive(Drop)]
pub struct Batching(Registered);

impl Batching {
    /// So many deliveries.
    pub fn ready(alloc: Global, count: u32) -> Result<Batching, Refused> {
        Ok(Batching(Registered::ready(alloc, count)?))
    }
}

impl Work for Batching {
    fn perform(&mut self) -> Result<u64, Refused> {
        let listed = self.0.ids_and_tags.as_slice();
        let accepted = DeliveryState::Accepted;
        let (frames, outcomes) = done(
            self.0
                .ends
                .sender
                .batch_dispose(listed, true, accepted, false),
        )?;
        let sent = frames.len() as u64;
        drop((frames, outcomes));
        Ok(sent)
    }
}

/// A receiver settles all its deliveries at once.
#[derive(Drop)]
pub struct Disposing {
    ends: Endpoints,
    infos: Vec<DeliveryInfo>,
}

impl Disposing {
    /// So many deliveries.
    pub fn ready(alloc: Global, count: u32) -> Result<Disposing, Refused> {
        let mut work = Disposing {
            ends: attached(alloc, 512)?,
            infos: Vec::new(alloc),
        };
        let answer = work.deliver(alloc, count);
        completed(work, answer)
    }

    fn deliver(&mut self, alloc: Global, count: u32) -> Result<(), Refused> {
        let payload = message_of(alloc, 64)?;
        for id in 0..count {
            let info = deliver(&mut self.ends, alloc, &payload, id)?;
            self.infos.push(info)?;
        }
        drop(payload);
        Ok(())
    }
}

impl Work for Disposing {
    fn perform(&mut self) -> Result<u64, Refused> {
        let accepted = DeliveryState::Accepted;
        let infos = self.infos.as_slice();
        let frames = done(
            self.ends
                .receiver
                .dispose_all(infos, Some(true), accepted, false),
        )?;
        let sent = frames.len() as u64;
        drop(frames);
        Ok(sent)
    }
}
