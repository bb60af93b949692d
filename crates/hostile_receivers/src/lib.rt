//! The life of an inbox among the frames of wrong and hostile peers.
//!
//! `user` has the calls of its user, with `taking` and `settling`; `peer` what its peer sends, and `incoming` what becomes of it.
#![tactic(auto)]

mod incoming;
mod peer;
mod settling;
mod taking;
mod user;

use amqp_link_endpoint::endpoint::LinkExt;
use amqp_link_inbox::{Contents, Inbox, Kept};
use amqp_link_state::state::LinkState;
use amqp_link_types::types::{DeliveryNumber, DeliveryTag, ReceiverSettleMode, Target};
use hostile_links::links::{limit, parts};
use hostile_links::phases::{Phase, phase_of};
use link_checks::{Check, Stop, are_distinct, holds};
use peer_frames::session::Session;
use peer_frames::wire::Wire;
use peer_frames::world::World;
use std::alloc::AllocError;

/// An inbox with what its user and its session know.
#[derive(Drop)]
pub struct ReceiverLife {
    inbox: Inbox<Target>,
    limit: u32,
    session: Session,
    wire: Wire,
    // The delivery-id that the peer gives next.
    next_id: DeliveryNumber,
    // How many bytes have come, and how many were taken.
    came: u64,
    taken: u64,
}

impl ReceiverLife {
    /// An inbox that is not attached.
    pub fn new(world: &mut World) -> Result<ReceiverLife, AllocError> {
        let limit = limit(&mut world.random);
        let inbox = Inbox::new(world.alloc, parts(world, limit)?);
        Ok(ReceiverLife {
            inbox,
            limit,
            session: Session::new(world.alloc, 0),
            wire: Wire::new(world.alloc),
            next_id: world.random.absurd(),
            came: 0,
            taken: 0,
        })
    }

    /// The state of the link.
    pub fn state(&self) -> LinkState {
        *self.inbox.local_state()
    }

    /// The user makes a call.
    pub fn call(&mut self, world: &mut World) -> Result<(), Stop> {
        let before = self.held(world);
        user::make_call(world, self)?;
        self.check(world, before)
    }

    /// A frame of the peer arrives.
    pub fn take_frame(&mut self, world: &mut World) -> Result<(), Stop> {
        let (before, came) = (self.held(world), self.came);
        let frame = peer::next_frame(world, self)?;
        incoming::take(world, self, frame)?;
        let new = self.came.saturating_sub(came);
        self.check(world, before.saturating_add(new))
    }

    // How many bytes are held of all deliveries that are kept by a tag.
    fn held(&self, world: &World) -> u64 {
        let mut held: u64 = 0;
        for tag in &world.tags {
            if let Some(kept) = self.inbox.get(tag) {
                held = held.saturating_add(held_by(kept));
            }
        }
        held
    }

    // What holds after each call, if no more than this may be held.
    fn check(&self, world: &World, most: u64) -> Result<(), Stop> {
        let held = self.held(world);
        holds(Check::HeldGrows, held <= most)?;
        let seen = held.saturating_add(self.taken);
        holds(Check::BytesCame, seen <= self.came)?;
        holds(Check::TagsOfMap, are_distinct(self.inbox.unsettled_map()))?;
        holds(Check::IdsNoted, self.has_noted_ids(world))
    }

    // Whether the session knows each unsettled delivery that has an id, if the link is one that tells it of them.
    fn has_noted_ids(&self, world: &World) -> bool {
        if !self.tells_session() || phase_of(self.state()) != Phase::Attached {
            return true;
        }
        for tag in &world.tags {
            if let Some(kept) = self.inbox.get(tag)
                && !self.knows(tag, kept)
            {
                return false;
            }
        }
        true
    }

    // Whether the session knows a delivery, or does not need to.
    fn knows(&self, tag: &DeliveryTag, kept: &Kept) -> bool {
        match kept.id {
            Some(id) if !kept.settled => self.session.has_named(id, tag),
            _ => true,
        }
    }

    // Whether the link tells the session of deliveries. Otherwise the session reads the transfers.
    fn tells_session(&self) -> bool {
        *self.inbox.rcv_settle_mode() == ReceiverSettleMode::Second
    }
}

// How many bytes are held of a delivery.
fn held_by(kept: &Kept) -> u64 {
    match &kept.contents {
        Contents::Begun(held) | Contents::Complete(held) => held.accumulated_payload_size(),
        Contents::Taken => 0,
    }
}
