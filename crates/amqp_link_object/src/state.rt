//! The values that an object can have.
ghost use Rattle.std.specs.Prelude.{◌≡◌};
ghost use Rattle.amqp_link_object.specs.States.{frames_of, kind_number, outcomes_of};

use amqp_link_core::resumption::ResumingDelivery;
use amqp_link_inbox::{Forgotten, Inbox};
use amqp_link_ledger::ledger::OutcomeLedger;
use amqp_link_types::delivery::{Delivery, DeliveryOutcome, Outcomes};
use amqp_link_types::frame::LinkFrame;
use amqp_link_types::types::{Attach, DeliveryTag, Target, Whole};
use std::collections::VecDeque;
use std::slice;

/// The object has nothing.
pub const KIND_NOTHING: u32 = 0;
/// The sender of a link, with what became of each of its deliveries.
pub const KIND_SENDER: u32 = 1;
/// The receiver of a link, with what has arrived of each delivery.
pub const KIND_RECEIVER: u32 = 2;
/// Frames to send.
pub const KIND_FRAMES: u32 = 3;
/// An attach, to send or as it has arrived.
pub const KIND_ATTACH: u32 = 4;
/// Deliveries to send again after an attach.
pub const KIND_RESUMING: u32 = 5;
/// Deliveries that have ended, with their outcomes.
pub const KIND_OUTCOMES: u32 = 6;
/// A delivery that was taken.
pub const KIND_DELIVERY: u32 = 7;
/// Deliveries that the peer has forgotten.
pub const KIND_FORGOTTEN: u32 = 8;

/// A value of the layer.
#[derive(Drop)]
pub enum State {
    /// Room for a value: a call allocates it before it changes a link, and fills it afterwards. No object that C sees has it.
    Room,
    /// The sender of a link.
    Sender(OutcomeLedger<Target>),
    /// The receiver of a link.
    Receiver(Inbox<Target>),
    /// A frame to send.
    Frame(LinkFrame),
    /// Frames to send, in their order.
    Frames(Vec<LinkFrame>),
    /// An attach.
    Attach(Attach),
    /// Deliveries to send again, each with its tag.
    Resuming(VecDeque<(DeliveryTag, ResumingDelivery)>),
    /// A delivery that has ended, with its outcome.
    Outcome((DeliveryTag, DeliveryOutcome)),
    /// Deliveries that have ended, with their outcomes.
    Outcomes(Outcomes),
    /// A delivery that was taken.
    Delivery(Delivery<Whole>),
    /// Deliveries that the peer has forgotten.
    Forgotten(Vec<Forgotten>),
}

impl State {
    /// The number of its kind.
    pub fn kind(&self) -> u32
        ensures { result ≡ kind_number self.now }
    {
        match self {
            State::Room => KIND_NOTHING,
            State::Sender(_) => KIND_SENDER,
            State::Receiver(_) => KIND_RECEIVER,
            State::Frame(_) | State::Frames(_) => KIND_FRAMES,
            State::Attach(_) => KIND_ATTACH,
            State::Resuming(_) => KIND_RESUMING,
            State::Outcome(_) | State::Outcomes(_) => KIND_OUTCOMES,
            State::Delivery(_) => KIND_DELIVERY,
            State::Forgotten(_) => KIND_FORGOTTEN,
        }
    }

    /// Its frames, in their order; none of another kind.
    pub fn frames(&self) -> &[LinkFrame]
        ensures { result.now ≡ frames_of self.now }
    {
        match self {
            State::Frame(frame) => slice::from_ref(frame),
            State::Frames(list) => list.as_slice(),
            _ => &[],
        }
    }

    /// Its deliveries that have ended; none of another kind.
    pub fn outcomes(&self) -> &[(DeliveryTag, DeliveryOutcome)]
        ensures { result.now ≡ outcomes_of self.now }
    {
        match self {
            State::Outcome(outcome) => slice::from_ref(outcome),
            State::Outcomes(list) => list.as_slice(),
            _ => &[],
        }
    }
}
