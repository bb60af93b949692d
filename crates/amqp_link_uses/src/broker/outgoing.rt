//! An outgoing link of a broker.
ghost use Rattle.std.specs.Prelude.{◌≡◌, ◌↔◌, ◌⊎◌, ◌<◌, [], false, None, Some, Err, IfErr, IfOk, IsSome, IsSomeAnd, OnErr, OnOk, is_some, length, slice_get};
ghost use Rattle.indexmap.specs.IndexMap.{spare};
ghost use Rattle.amqp_link.specs.Entries.{entry_at, without_entry};
ghost use Rattle.amqp_link.specs.Senders.{next_tag};
ghost use Rattle.amqp_link.specs.declared.errors.DispositionError.TheVariants.{OutOfMemory};
ghost use Rattle.amqp_link_uses.specs.Brokers;
ghost use Rattle.amqp_link_uses.specs.Brokers.{DisposesAt, SendsAt, SendsOn, StepsAt, Stops, StopsNext, done_by, is_resuming, under_way_with};

use crate::broker::{DispositionError, Message, Origin, SendError};
use amqp_link::delivery::{DeliveryOutcome, Settlement};
use amqp_link::errors::LinkStateError;
use amqp_link::resumption::{ResumingDelivery, Step};
use amqp_link::sender_link::DispositionAnswer;
use amqp_link::types::Target;
use amqp_link::{DeliveryState, DeliveryTag, LinkExt, LinkFrame, OutcomeLedger, Sending, Waiting};
use indexmap::IndexMap;
use std::alloc::Global;
use std::collections::VecDeque;
use std::marker::Model;

/// An outgoing link, and where the messages came from that are under way on it.
#[derive(Drop)]
pub struct Outgoing {
    /// The link. Its frames go to its calls, and the outcomes that they return to the broker's.
    pub ledger: OutcomeLedger<Target>,
    under_way: IndexMap<DeliveryTag, Origin>,
    pub(super) ended: VecDeque<(DeliveryTag, DeliveryOutcome)>,
    pub(super) resuming: VecDeque<(DeliveryTag, ResumingDelivery)>,
    pub(super) is_incomplete: bool,
}

impl Model for Outgoing {
    ghost use Rattle.amqp_link_uses.specs.Brokers.{OutgoingState};

    ghost Value = { OutgoingState };

    ghost use Rattle.std.specs.Coded.{codes};
    ghost use Rattle.amqp_link.specs.contracts.types.Fields as fields;

    ghost coded = { Prim.hlevel (codes, fields.the_row.coded) };

    ghost view = { λ outgoing. record {
      ledger = outgoing.ledger;
      under_way = outgoing.under_way.entries;
      ended = outgoing.ended.items;
      resuming = outgoing.resuming.items;
      is_incomplete = outgoing.is_incomplete;
    } };
}

/// A message that was sent.
#[derive(Drop)]
pub(super) struct Onward {
    pub(super) frames: Vec<LinkFrame>,
    /// Where it came from, if it was sent settled.
    pub(super) done: Option<Origin>,
}

/// A message that was not sent, and why; without credit for no reason.
#[derive(Drop)]
pub(super) struct Unsent {
    pub(super) refused: Option<SendError>,
    pub(super) message: Message,
}

impl Outgoing {
    /// A link on which nothing is under way. Does not allocate.
    pub fn new(alloc: Global, ledger: OutcomeLedger<Target>) -> Outgoing
        ensures { result ≡ record { ledger = ledger; under_way = []; ended = []; resuming = []; is_incomplete = false } }
    {
        Outgoing {
            ledger,
            under_way: IndexMap::new(alloc),
            ended: VecDeque::new(alloc),
            resuming: VecDeque::new(alloc),
            is_incomplete: false,
        }
    }

    /// How many messages are under way.
    pub fn under_way_len(&self) -> usize
        ensures { result ≡ length self.now.under_way }
    {
        self.under_way.len()
    }

    /// How many deliveries the last exchange has left to resume.
    pub fn resuming_len(&self) -> usize
        ensures { result ≡ length self.now.resuming }
    {
        self.resuming.len()
    }

    /// Whether what the last exchange has ended or left is not all returned, resumed or put back.
    pub fn is_resuming(&self) -> bool
        ensures { result ≡ Brokers.is_resuming self.now }
    {
        !self.ended.is_empty() || !self.resuming.is_empty()
    }

    /// Whether the last exchange did not state all deliveries, so that the link is to be attached again.
    pub fn is_incomplete(&self) -> bool
        ensures { result ≡ self.now.is_incomplete }
    {
        self.is_incomplete
    }

    // Sends a message for one credit, once nothing of the last exchange is left.
    pub(super) fn send(&mut self, message: Message) -> Result<Onward, Unsent>
        ensures sent { IfOk result (λ onward. SendsOn self.old message onward.frames.items onward.done self.new) }
        ensures refused { IfErr result (λ unsent. Stops unsent.refused (Some self.old) message) }
        ensures back { IfErr result (λ unsent. unsent.message ≡ message) }
        ensures left { OnErr result (self.new ≡ self.old) }
    {
        if self.is_resuming() {
            return Err(Unsent {
                refused: Some(SendError::StillResuming),
                message,
            });
        }
        self.send_now(message)
    }

    fn send_now(&mut self, message: Message) -> Result<Onward, Unsent>
        requires { is_resuming self.old ≡ false }
        ensures sent { IfOk result (λ onward. SendsOn self.old message onward.frames.items onward.done self.new) }
        ensures refused { IfErr result (λ unsent. Stops unsent.refused (Some self.old) message) }
        ensures back { IfErr result (λ unsent. unsent.message ≡ message) }
        ensures left { OnErr result (self.new ≡ self.old) }
    {
        if let Err(error) = room_for_one(&self.ledger, &mut self.under_way) {
            return Err(unsent_for(error, message));
        }
        let (payload, format) = (&message.payload, message.message_format);
        let sent = self.ledger.send_payload(
            Waiting::Nothing,
            payload,
            format,
            Some(false),
            None,
            false,
        );
        match sent {
            Ok(Sending::Sent { settlement, frames }) => {
                let done = enter(&mut self.under_way, settlement, message);
                Ok(Onward { frames, done })
            }
            Ok(Sending::CreditMissing) => Err(Unsent {
                refused: None,
                message,
            }),
            Err(error) => Err(unsent_for(error, message)),
        }
    }

    // The message under this tag is under way no longer.
    pub(super) fn leave(&mut self, tag: &DeliveryTag) -> Option<Origin>
        ensures origin { result ≡ entry_at self.old.under_way tag.now }
        ensures left { self.new ≡ record self.old { under_way = without_entry self.old.under_way tag.now } }
    {
        self.under_way.swap_remove(tag)
    }
}

fn unsent_for(error: LinkStateError, message: Message) -> Unsent
    ensures { result ≡ record { refused = Some (SendError.Link error); message = message } }
{
    Unsent {
        refused: Some(SendError::Link(error)),
        message,
    }
}

// Makes room for one message more under way; the tag of the link's next delivery has to be free.
fn room_for_one(
    ledger: &OutcomeLedger<Target>,
    under_way: &mut IndexMap<DeliveryTag, Origin>,
) -> Result<(), LinkStateError>
    ensures same { under_way.new.entries ≡ under_way.old.entries }
    ensures room { OnOk result ((0 < spare under_way.new)
        × (entry_at under_way.old.entries (next_tag ledger.now.link) ≡ None)) }
    ensures refused { IfErr result (λ error. (error ≡ LinkStateError.OutOfMemory)
        ⊎ ((error ≡ LinkStateError.TagPending) × IsSome (entry_at under_way.old.entries (next_tag ledger.now.link)))) }
{
    let count = ledger.link().flow_state().delivery_count().to_be_bytes();
    let tag = DeliveryTag::copied(*under_way.allocator(), count.as_slice())?;
    let is_taken = under_way.contains_key(&tag);
    drop(tag);
    if is_taken {
        return Err(LinkStateError::TagPending);
    }
    Ok(under_way.reserve(1)?)
}

// A message is under way, if its delivery awaits an outcome; otherwise it returns where it came from.
fn enter(
    under_way: &mut IndexMap<DeliveryTag, Origin>,
    settlement: Settlement,
    message: Message,
) -> Option<Origin>
    requires { 0 < spare under_way.old }
    ensures under_way { under_way.new.entries ≡ under_way_with settlement message.origin under_way.old.entries }
    ensures done { result ≡ done_by settlement message.origin }
{
    let Message {
        origin,
        payload,
        ..
    } = message;
    drop(payload);
    match settlement {
        Settlement::Unsettled(tag) => {
            let _ = under_way.insert(tag, origin);
            None
        }
        Settlement::Settled(tag) => {
            drop(tag);
            Some(origin)
        }
    }
}

// Sends a message on the outgoing link with this number.
pub(super) fn send_on(
    outgoing: &mut Vec<Outgoing>,
    link: usize,
    message: Message,
) -> Result<Onward, Unsent>
    ensures sent { IfOk result (λ onward.
        SendsAt link outgoing.old.items message onward.frames.items onward.done outgoing.new.items) }
    ensures refused { IfErr result (λ unsent. Stops unsent.refused (slice_get outgoing.old.items link) message) }
    ensures back { IfErr result (λ unsent. unsent.message ≡ message) }
    ensures left { OnErr result (outgoing.new.items ≡ outgoing.old.items) }
{
    match outgoing.get_mut(link) {
        Some(outgoing) => outgoing.send(message),
        None => Err(Unsent {
            refused: Some(SendError::NoSuchLink),
            message,
        }),
    }
}

// Takes the peer's disposition on the outgoing link with this number.
pub(super) fn dispose_on(
    outgoing: &mut Vec<Outgoing>,
    link: usize,
    settled: bool,
    state: Option<DeliveryState>,
    tag: &DeliveryTag,
) -> Result<DispositionAnswer, DispositionError>
    ensures taken { IfOk result (λ answer.
        DisposesAt link settled state tag.now outgoing.old.items answer.echo answer.outcome outgoing.new.items) }
    ensures no_such_link { result ≡ Err DispositionError.NoSuchLink ↔ (is_some (slice_get outgoing.old.items link) ≡ false) }
    ensures memory { IfErr result (λ error. (error ≡ DispositionError.NoSuchLink) ⊎ (error ≡ DispositionError.Link OutOfMemory)) }
    ensures left { OnErr result (outgoing.new.items ≡ outgoing.old.items) }
{
    let Some(on) = outgoing.get_mut(link) else {
        drop(state);
        return Err(DispositionError::NoSuchLink);
    };
    match on.ledger.on_incoming_disposition(settled, state, tag) {
        Ok(answer) => Ok(answer),
        Err(error) => Err(DispositionError::Link(error)),
    }
}

// Takes what comes first on the outgoing link with this number.
pub(super) fn take_next_on(
    outgoing: &mut Vec<Outgoing>,
    link: usize,
    is_sent: bool,
) -> Result<Step, SendError>
    ensures step { IfOk result (λ step. StepsAt link is_sent outgoing.old.items step outgoing.new.items) }
    ensures refused { IfErr result (λ error. ((error ≡ SendError.NoSuchLink) × (slice_get outgoing.old.items link ≡ None))
        ⊎ ((why : _) × (error ≡ SendError.Link why)
        × IsSomeAnd (slice_get outgoing.old.items link) (λ o. StopsNext is_sent why o))) }
    ensures left { OnErr result (outgoing.new.items ≡ outgoing.old.items) }
{
    let Some(on) = outgoing.get_mut(link) else {
        return Err(SendError::NoSuchLink);
    };
    match on.take_next(is_sent) {
        Ok(step) => Ok(step),
        Err(error) => Err(SendError::Link(error)),
    }
}
