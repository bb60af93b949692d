//! The life of a sender that records what becomes of its deliveries, among the frames of wrong and hostile peers.
//!
//! `user` has the calls of its user, with `sending`, `resuming` and `settling`; `peer` what its peer sends, and `incoming` what
//! becomes of it.
#![tactic(auto)]

mod incoming;
mod peer;
mod resuming;
mod sending;
mod settling;
mod user;

use amqp_link_core::resumption::ResumingDelivery;
use amqp_link_endpoint::endpoint::LinkExt;
use amqp_link_ledger::ledger::OutcomeLedger;
use amqp_link_sender::sender_link::SenderLink;
use amqp_link_state::state::LinkState;
use amqp_link_types::delivery::{DeliveryOutcome, Outcomes};
use amqp_link_types::frame::LinkFrame;
use amqp_link_types::types::{DeliveryTag, Target};
use hostile_links::links::{limit, parts};
use hostile_links::refusals::Refusal;
use link_checks::{Check, Stop, are_distinct, holds};
use peer_frames::reached::{count_more, count_one};
use peer_frames::session::Session;
use peer_frames::wire::Wire;
use peer_frames::world::World;
use std::alloc::AllocError;
use std::collections::VecDeque;

/// A sender's link endpoint with what its user and its session know.
#[derive(Drop)]
pub struct SenderLife {
    ledger: OutcomeLedger<Target>,
    limit: u32,
    session: Session,
    wire: Wire,
    // What an exchange has left to be resumed.
    left: VecDeque<(DeliveryTag, ResumingDelivery)>,
    // How many bytes of new deliveries were sent.
    sent: u64,
    // How many registrations were made, and how many of them have ended.
    registered: usize,
    ended: usize,
}

impl SenderLife {
    /// A sender that is not attached.
    pub fn new(world: &mut World) -> Result<SenderLife, AllocError> {
        let limit = limit(&mut world.random);
        let link = SenderLink::new(world.alloc, parts(world, limit)?);
        let ledger = match OutcomeLedger::new(world.alloc, link) {
            Ok(ledger) => ledger,
            Err(link) => {
                drop(link);
                return Err(AllocError);
            }
        };
        Ok(SenderLife {
            ledger,
            limit,
            session: Session::new(world.alloc, world.random.absurd()),
            wire: Wire::new(world.alloc),
            left: VecDeque::new(world.alloc),
            sent: 0,
            registered: 0,
            ended: 0,
        })
    }

    /// The state of the link.
    pub fn state(&self) -> LinkState {
        *self.ledger.local_state()
    }

    /// The user makes a call.
    pub fn call(&mut self, world: &mut World) -> Result<(), Stop> {
        let (before, sent) = (self.held(), self.sent);
        user::make_call(world, self)?;
        let new = self.sent.saturating_sub(sent);
        self.check(before.saturating_add(new))
    }

    /// A frame of the peer arrives.
    pub fn take_frame(&mut self, world: &mut World) -> Result<(), Stop> {
        let before = self.held();
        let frame = peer::next_frame(world, self)?;
        incoming::take(world, self, frame)?;
        self.check(before)
    }

    // How many bytes are held of all deliveries, in the unsettled map and by the user.
    fn held(&self) -> u64 {
        let mut held: u64 = 0;
        for (_, entry) in self.ledger.unsettled_map().pairs() {
            held = held.saturating_add(entry.payload.len() as u64);
        }
        for (_, left) in &self.left {
            held = held.saturating_add(held_by(left));
        }
        held
    }

    // What holds after each call, if no more than this may be held.
    fn check(&self, most: u64) -> Result<(), Stop> {
        holds(Check::HeldGrows, self.held() <= most)?;
        holds(Check::TagsOfMap, are_distinct(self.ledger.unsettled_map()))?;
        holds(Check::Registered, self.has_fates())?;
        let known = self.ended.saturating_add(self.ledger.unsettled_map().len());
        holds(Check::EndsOnce, known == self.registered)
    }

    // A registration is made.
    fn count_registered(&mut self) {
        self.registered = self.registered.saturating_add(1);
    }

    // These transfers of a new delivery are sent.
    fn count_sent(&mut self, frames: &[LinkFrame]) {
        for frame in frames {
            if let Some(transfer) = frame.as_transfer() {
                self.sent = self.sent.saturating_add(transfer.payload.len() as u64);
            }
        }
    }

    // So many registrations have ended.
    fn count_ended(&mut self, count: usize) {
        self.ended = self.ended.saturating_add(count);
    }

    // Counts what became of deliveries.
    fn take_outcomes(&mut self, world: &mut World, outcomes: Outcomes) {
        self.count_ended(outcomes.len());
        for (_, outcome) in outcomes.iter() {
            count_outcome(world, outcome);
        }
        drop(outcomes);
    }

    // Whether each registration has a fate, and no other.
    fn has_fates(&self) -> bool {
        let last = match self.registered.checked_sub(1) {
            Some(last) => self.ledger.fate(last).is_some(),
            None => true,
        };
        last && self.ledger.fate(self.registered).is_none()
    }
}

// How many bytes are held of a delivery that an exchange has left to be resumed.
fn held_by(left: &ResumingDelivery) -> u64 {
    let bytes = match left {
        ResumingDelivery::Abort { .. } => 0,
        ResumingDelivery::Resend(entry) => entry.payload.len(),
        ResumingDelivery::Resume { entry, .. } => entry.payload.len(),
        ResumingDelivery::RestateOutcome { payload, .. } => payload.len(),
    };
    bytes as u64
}

// Counts what became of a delivery.
fn count_outcome(world: &mut World, outcome: &DeliveryOutcome) {
    match outcome {
        Ok(_) => count_one(&mut world.reached.outcomes),
        Err(error) => {
            count_one(&mut world.reached.failures);
            if let Some(name) = error.name() {
                world.reached.count_refusal(name);
            }
        }
    }
}

// Counts frames that are sent, and drops them.
fn send_off(world: &mut World, frames: Vec<LinkFrame>) {
    count_more(&mut world.reached.transfers, frames.len());
    drop(frames);
}
