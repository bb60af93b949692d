//! An incoming link of a broker.
ghost use Rattle.std.specs.Prelude.{◌≡◌, ◌⊎◌, [], Err, IfErr, IfOk, IsSome, IsSomeAnd, None, OnErr, OnOk, Some, false, true};
ghost use Rattle.amqp_link.specs.Disposing.{info_to_dispose};
ghost use Rattle.amqp_link.specs.DispositionFrames.{disposition_frame};
ghost use Rattle.amqp_link.specs.Entries.{entry_at};
ghost use Rattle.amqp_link.specs.declared.types.Role.TheVariants.{Receiver};
ghost use Rattle.amqp_link_uses.specs.Brokers;
ghost use Rattle.amqp_link_uses.specs.Brokers.{carried_by, left_unsettled, outcome_known, settled_on};

use crate::broker::{Origin, SettleError};
use amqp_link::inbox::DisposeError;
use amqp_link::types::Target;
use amqp_link::{DeliveryState, DeliveryTag, Inbox, LinkFrame};
use indexmap::IndexMap;
use std::alloc::Global;
use std::marker::Model;
use std::mem;

/// What became of a message that was taken in.
#[derive(Debug, Drop)]
pub enum Progress {
    /// It is queued or under way, and has this number.
    Pending(u64),
    /// Its delivery is to be settled with this outcome.
    Ended(DeliveryState),
}

/// An incoming link, and what became of its messages that are not settled.
#[derive(Drop)]
pub struct Incoming {
    /// The link. Its frames go to its calls.
    pub inbox: Inbox<Target>,
    pub(super) messages: IndexMap<DeliveryTag, Progress>,
}

impl Model for Incoming {
    ghost use Rattle.amqp_link_uses.specs.Brokers.{IncomingState};

    ghost Value = { IncomingState };

    ghost use Rattle.std.specs.Coded.{codes};
    ghost use Rattle.amqp_link.specs.contracts.types.Fields as fields;

    ghost coded = { Prim.hlevel (codes, fields.the_row.coded) };

    ghost view = { λ incoming. record { inbox = incoming.inbox; messages = incoming.messages.entries } };
}

impl Incoming {
    /// A link of which no message was taken in. Does not allocate.
    pub fn new(alloc: Global, inbox: Inbox<Target>) -> Incoming
        ensures { result ≡ record { inbox = inbox; messages = [] } }
    {
        Incoming {
            inbox,
            messages: IndexMap::new(alloc),
        }
    }

    // The outcome of a message has returned.
    pub(super) fn carry_back(&mut self, origin: &Origin, state: DeliveryState)
        ensures { self.new ≡ carried_by origin.now state self.old }
    {
        let Some(tag) = &origin.tag else {
            drop(state);
            return;
        };
        let Some(place) = self.messages.get_mut(tag) else {
            drop(state);
            return;
        };
        if awaits(place, origin.number) {
            drop(mem::replace(place, Progress::Ended(state)));
        } else {
            drop(state);
        }
    }

    // A copy of the outcome of a delivery, if it is known.
    fn outcome_of(&self, tag: &DeliveryTag) -> Result<DeliveryState, SettleError>
        ensures known { IfOk result (λ state. outcome_known tag.now self.now ≡ Some state) }
        ensures refused { IfErr result (λ error. ((error ≡ SettleError.Inbox DisposeError.OutOfMemory) × IsSome (outcome_known tag.now self.now))
            ⊎ ((error ≡ SettleError.NoOutcome) × (outcome_known tag.now self.now ≡ None))) }
    {
        match self.messages.get(tag) {
            Some(Progress::Ended(state)) => Ok(state.clone()?),
            _ => Err(SettleError::NoOutcome),
        }
    }

    // The disposition of a delivery by its outcome.
    pub(super) fn settle(&mut self, tag: &DeliveryTag) -> Result<LinkFrame, SettleError>
        ensures frame { IfOk result (λ frame. IsSomeAnd (outcome_known tag.now self.old) (λ state.
            IfOk (info_to_dispose self.old.inbox.link.local_state (entry_at self.old.inbox.deliveries tag.now) tag.now) (λ info.
            frame ≡ disposition_frame Receiver info.delivery_id None true state false))) }
        ensures after { OnOk result (IsSomeAnd (outcome_known tag.now self.old) (λ state.
            self.new ≡ settled_on tag.now state self.old)) }
        ensures known { result ≡ Err SettleError.NoOutcome → outcome_known tag.now self.old ≡ None }
        ensures unknown { outcome_known tag.now self.old ≡ None → result ≡ Err SettleError.NoOutcome }
        ensures refused { IfErr result (λ error. (error ≡ SettleError.NoOutcome) ⊎ (error ≡ SettleError.Inbox DisposeError.OutOfMemory)
            ⊎ ((why : _) × (error ≡ SettleError.Inbox why)
            × (info_to_dispose self.old.inbox.link.local_state (entry_at self.old.inbox.deliveries tag.now) tag.now ≡ Err why))) }
        ensures left { (why : _) → result ≡ Err (SettleError.Inbox why) → self.new ≡ left_unsettled why tag.now self.old }
        ensures left_unknown { result ≡ Err SettleError.NoOutcome → self.new ≡ self.old }
    {
        let state = self.outcome_of(tag)?;
        match self.inbox.dispose(tag, Some(true), state, false) {
            Ok(frame) => {
                drop(self.messages.swap_remove(tag));
                Ok(frame)
            }
            Err(error) => {
                if error == DisposeError::UnknownTag {
                    drop(self.messages.swap_remove(tag));
                }
                Err(SettleError::Inbox(error))
            }
        }
    }
}

// Whether this is the message with this number, and has no outcome yet.
fn awaits(progress: &Progress, number: u64) -> bool
    ensures { result ≡ Brokers.awaits number (Some progress.now) }
{
    match progress {
        Progress::Pending(last) => *last == number,
        Progress::Ended(_) => false,
    }
}
