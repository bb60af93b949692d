//! The core of a broker: it takes messages in on its incoming links, sends each on along one of its outgoing links, and settles
//! it where it came from by the outcome that came back, through lost sessions on either side.
//!
//! Each incoming link is an inbox (`Incoming`), and each outgoing one a ledger (`Outgoing`). Their frames go to their own calls,
//! but for what moves a message, or states how many may come:
//!
//! - `grant` states credit on an incoming link: what may come, has come, is queued and is under way never passes the room.
//! - Once a delivery is complete in its inbox, `take` moves its message into the queue, `take_settled` that of one that its
//!   sender has settled.
//! - `send_next` sends the first message of the queue on an outgoing link: from then on it is under way there.
//! - A disposition of an outgoing link goes to `on_incoming_disposition`, and the outcomes that other calls of its ledger
//!   return to `return_outcome`: the delivery from which the message came has that outcome from then on, also while its own
//!   link is cut.
//! - `settle` makes the disposition of a delivery whose outcome is known: at once, or after its sender has resumed it
//!   (`inbox::Arrival::Known`).
//! - An outgoing link is attached by `send_attach` and `on_incoming_attach`; what is to be sent again then goes out by
//!   `resume_next`, or stays for the next attach by `put_back_next`.

ghost use Rattle.std.specs.Prelude.{◌≡◌, [], Err, MatchOption, Ok, is_some, length, slice_get, if◌then◌else◌};
ghost use Rattle.amqp_link_uses.specs.Brokers.{Forwards, returned_if};
ghost use Rattle.amqp_link.specs.declared.types.DeliveryState.TheVariants.{Accepted};

mod errors;
mod granting;
mod incoming;
pub mod laws;
mod outgoing;
mod resuming;
mod returning;
mod taking;

use crate::broker::outgoing::{Onward, Unsent, send_on};
use crate::broker::returning::carry_back;
use amqp_link::types::MessageFormat;
use amqp_link::{DeliveryState, DeliveryTag, LinkFrame, Payload};
pub use errors::{AttachError, DispositionError, GrantError, SendError, SettleError, TakeInError};
pub use incoming::{Incoming, Progress};
pub use outgoing::Outgoing;
pub use resuming::Resumed;
pub use returning::Returned;
use std::alloc::Global;
use std::collections::VecDeque;
use std::marker::Model;

/// Where a message came from.
#[derive(Debug, PartialEq, Eq, Drop)]
pub struct Origin {
    /// The number of the incoming link.
    pub link: usize,
    /// The tag of its delivery there; none if its sender has settled it, so that it gets no outcome.
    pub tag: Option<DeliveryTag>,
    /// The number of the message among all that the broker has taken in.
    pub number: u64,
}

/// A message that was taken in, and is not sent on yet.
#[derive(Debug, Drop)]
pub struct Message {
    /// Where it came from.
    pub origin: Origin,
    /// Its format.
    pub message_format: MessageFormat,
    /// Its bytes.
    pub payload: Payload,
}

/// What `send_next` has done.
#[derive(Debug, Drop)]
pub enum Forwarded {
    /// The first message is under way: its transfers, to be sent in this order.
    Sent(Vec<LinkFrame>),
    /// It was sent settled, and is done: its transfers, and where it came from, which is accepted there.
    Done(Vec<LinkFrame>, Origin),
    /// The link has no credit: call again after its next flow.
    CreditMissing,
    /// No message is queued.
    NothingQueued,
}

/// Several incoming and outgoing links, and the messages between them.
///
/// A message that was taken in is queued, under way on one outgoing link, or done: the delivery from which it came then has the
/// outcome that came back. Each call says which of them it moves, and `laws` what follows for all of them.
#[derive(Drop)]
pub struct Broker {
    alloc: Global,
    room: u32,
    next_number: u64,
    /// The links on which messages arrive, by their numbers.
    pub incoming: Vec<Incoming>,
    queue: VecDeque<Message>,
    /// The links on which they are sent on, by their numbers.
    pub outgoing: Vec<Outgoing>,
}

impl Model for Broker {
    ghost use Rattle.amqp_link_uses.specs.Brokers.{BrokerState};

    ghost Value = { BrokerState };

    ghost use Rattle.std.specs.Coded.{codes};
    ghost use Rattle.amqp_link.specs.contracts.types.Fields as fields;

    ghost coded = { Prim.hlevel (codes, fields.the_row.coded) };

    ghost view = { λ broker. record {
      room = broker.room;
      next_number = broker.next_number;
      incoming = broker.incoming.items;
      queue = broker.queue.items;
      outgoing = broker.outgoing.items;
    } };
}

impl Broker {
    /// A broker without links that has room for so many messages. Does not allocate.
    pub fn new(alloc: Global, room: u32) -> Broker
        ensures { result ≡ record { room = room; next_number = 0; incoming = []; queue = []; outgoing = [] } }
    {
        Broker {
            alloc,
            room,
            next_number: 0,
            incoming: Vec::new(alloc),
            queue: VecDeque::new(alloc),
            outgoing: Vec::new(alloc),
        }
    }

    /// How many messages are queued.
    pub fn queued(&self) -> usize
        ensures { result ≡ length self.now.queue }
    {
        self.queue.len()
    }

    /// Sends the first message of the queue on this outgoing link, unsettled where the link's mode lets it, for one credit. It
    /// is under way there from then on. On a link of mode `Settled` it is done, and its delivery is accepted.
    ///
    /// Refused in this order, with nothing changed: `NoSuchLink`; `StillResuming`; and, if a message is queued, as `send_payload` of the link's
    /// ledger is, of which `OutOfMemory` may come first. Without a queued message, and without credit, nothing has changed either.
    ///
    /// Its cost grows with the bytes of the message; it is the same for any number of messages.
    pub fn send_next(&mut self, link: usize) -> Result<Forwarded, SendError>
        ensures { Forwards link self.old result self.new }
    {
        let Some(message) = self.queue.pop_front() else {
            return self.nothing_queued(link);
        };
        match send_on(&mut self.outgoing, link, message) {
            Ok(Onward { frames, done }) => Ok(self.forwarded(frames, done)),
            Err(Unsent { refused, message }) => {
                self.queue.push_front_reserved(message);
                match refused {
                    Some(error) => Err(error),
                    None => Ok(Forwarded::CreditMissing),
                }
            }
        }
    }

    // What `send_next` answers without a message.
    fn nothing_queued(&self, link: usize) -> Result<Forwarded, SendError>
        ensures { result ≡ (if is_some (slice_get self.now.outgoing link) then Ok Forwarded.NothingQueued else Err SendError.NoSuchLink) }
    {
        if link < self.outgoing.len() {
            Ok(Forwarded::NothingQueued)
        } else {
            Err(SendError::NoSuchLink)
        }
    }

    // A message was sent, and is done if it came from there.
    fn forwarded(&mut self, frames: Vec<LinkFrame>, done: Option<Origin>) -> Forwarded
        ensures sent { MatchOption done (result ≡ Forwarded.Sent frames) (λ origin. result ≡ Forwarded.Done frames origin) }
        ensures after { self.new ≡ record self.old { incoming = returned_if done Accepted self.old.incoming } }
    {
        match done {
            Some(origin) => {
                carry_back(&mut self.incoming, &origin, DeliveryState::Accepted);
                Forwarded::Done(frames, origin)
            }
            None => Forwarded::Sent(frames),
        }
    }
}
