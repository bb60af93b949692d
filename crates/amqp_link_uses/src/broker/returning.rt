//! Outcomes that return to where their messages came from.
ghost use Rattle.std.specs.Prelude.{◌≡◌, ◌↔◌, ◌⊎◌, Ok, Err, None, Some, IfErr, IfOk, IsSome, IsSomeAnd, OnErr, OnOk, false, true, is_some, slice_get, if◌then◌else◌};
ghost use Rattle.amqp_link.specs.DeliveryStates.{is_terminal};
ghost use Rattle.amqp_link.specs.Disposing.{info_to_dispose};
ghost use Rattle.amqp_link.specs.DispositionFrames.{disposition_frame};
ghost use Rattle.amqp_link.specs.Entries.{entry_at};
ghost use Rattle.amqp_link.specs.declared.errors.DispositionError.TheVariants.{OutOfMemory};
ghost use Rattle.amqp_link.specs.declared.inbox.DisposeError.TheVariants.{OutOfMemory as TheOutOfMemory};
ghost use Rattle.amqp_link.specs.declared.types.DeliveryState.TheVariants.{Released};
ghost use Rattle.amqp_link.specs.declared.types.Role.TheVariants.{Receiver};
ghost use Rattle.amqp_link_uses.specs.Brokers.{Disposes, left_unsettled, origin_at, outcome_known, returned, returned_to, settled_on, state_for, with_incoming};

use crate::broker::outgoing::dispose_on;
use crate::broker::{Broker, DispositionError, Incoming, Origin, SettleError};
use amqp_link::delivery::DeliveryOutcome;
use amqp_link::sender_link::DispositionAnswer;
use amqp_link::{DeliveryState, DeliveryTag, LinkFrame};

/// What a disposition of an outgoing link has brought.
#[derive(Debug, PartialEq, Eq, Drop)]
pub struct Returned {
    /// Whether it asks for an answer, by `dispose` of the link's ledger.
    pub echo: bool,
    /// Where the message came from that has its outcome by it: `Broker::settle` settles it there.
    pub origin: Option<Origin>,
}

// The state with which a delivery is settled: released, unless the outcome has one that is terminal.
fn state_of(outcome: DeliveryOutcome) -> DeliveryState
    ensures { result ≡ state_for outcome }
{
    match outcome {
        Ok(Some(state)) => terminal_or_released(state),
        other => {
            drop(other);
            DeliveryState::Released
        }
    }
}

// This state if it is terminal, otherwise released.
fn terminal_or_released(state: DeliveryState) -> DeliveryState
    ensures { result ≡ (if is_terminal state then state else Released) }
{
    if state.is_terminal() {
        return state;
    }
    drop(state);
    DeliveryState::Released
}

// The outcome of a message returns to where it came from.
pub(super) fn carry_back(incoming: &mut Vec<Incoming>, origin: &Origin, state: DeliveryState)
    ensures { incoming.new.items ≡ returned_to origin.now state incoming.old.items }
{
    match incoming.get_mut(origin.link) {
        Some(from) => from.carry_back(origin, state),
        None => drop(state),
    }
}

impl Broker {
    /// The outcome of the delivery with this tag on an outgoing link, which a call of the link's ledger has returned, returns to
    /// where its message came from: the delivery has that outcome from then on, or is released where it has none. Returns where
    /// that is; none if no message is under way under the tag. Does not allocate.
    pub fn return_outcome(
        &mut self,
        link: usize,
        tag: &DeliveryTag,
        outcome: DeliveryOutcome,
    ) -> Option<Origin>
        ensures after { self.new ≡ returned link tag.now outcome self.old }
        ensures origin { result ≡ origin_at link tag.now self.old.outgoing }
    {
        let origin = match self.outgoing.get_mut(link) {
            Some(outgoing) => outgoing.leave(tag),
            None => None,
        };
        let state = state_of(outcome);
        match origin {
            Some(origin) => {
                carry_back(&mut self.incoming, &origin, state);
                Some(origin)
            }
            None => {
                drop(state);
                None
            }
        }
    }

    /// Takes the disposition of one delivery on an outgoing link from its peer, as `on_incoming_disposition` of the link's
    /// ledger does. If it ends the delivery, the outcome returns to where its message came from: with the peer's state if that is
    /// terminal, otherwise as released.
    ///
    /// Refused in this order, with nothing changed: `NoSuchLink`; and as the ledger's call is, out of memory.
    ///
    /// Its cost is the same for any number of messages.
    pub fn on_incoming_disposition(
        &mut self,
        link: usize,
        settled: bool,
        state: Option<DeliveryState>,
        tag: &DeliveryTag,
    ) -> Result<Returned, DispositionError>
        ensures taken { IfOk result (λ answer.
            Disposes link settled state tag.now self.old answer.echo answer.origin self.new) }
        ensures no_such_link { result ≡ Err DispositionError.NoSuchLink ↔ (is_some (slice_get self.old.outgoing link) ≡ false) }
        ensures memory { IfErr result (λ error. (error ≡ DispositionError.NoSuchLink) ⊎ (error ≡ DispositionError.Link OutOfMemory)) }
        ensures left { OnErr result (self.new ≡ self.old) }
    {
        let answer = match dispose_on(&mut self.outgoing, link, settled, state, tag) {
            Ok(answer) => answer,
            Err(error) => return Err(error),
        };
        let DispositionAnswer { echo, outcome } = answer;
        let Some((own, outcome)) = outcome else {
            return Ok(Returned { echo, origin: None });
        };
        drop(own);
        let origin = self.return_outcome(link, tag, outcome);
        Ok(Returned { echo, origin })
    }

    /// The disposition to send on an incoming link, which settles a delivery by the outcome that has returned.
    ///
    /// Refused in this order: `NoSuchLink`; `NoOutcome` if none has returned, or it is settled; and as `dispose` of the inbox is, of
    /// which `OutOfMemory` may come first. Nothing has changed then, but for `UnknownTag`: the delivery's sender has settled or
    /// forgotten it, and its outcome is dropped. After `NotAttached` and `NotResumed` call again once the sender has resumed the
    /// delivery. Call it for each delivery that an attach of its sender says is forgotten, so that nothing of it is kept.
    pub fn settle(&mut self, link: usize, tag: &DeliveryTag) -> Result<LinkFrame, SettleError>
        ensures frame { IfOk result (λ frame. IsSomeAnd (slice_get self.old.incoming link) (λ s.
            IsSomeAnd (outcome_known tag.now s) (λ state.
            IfOk (info_to_dispose s.inbox.link.local_state (entry_at s.inbox.deliveries tag.now) tag.now) (λ info.
            frame ≡ disposition_frame Receiver info.delivery_id None true state false)))) }
        ensures after { OnOk result (IsSomeAnd (slice_get self.old.incoming link) (λ s.
            IsSomeAnd (outcome_known tag.now s) (λ state.
            self.new ≡ with_incoming link (settled_on tag.now state s) self.old))) }
        ensures no_such_link { result ≡ Err SettleError.NoSuchLink ↔ (slice_get self.old.incoming link ≡ None) }
        ensures no_outcome { result ≡ Err SettleError.NoOutcome
            ↔ IsSomeAnd (slice_get self.old.incoming link) (λ s. outcome_known tag.now s ≡ None) }
        ensures refused { (error : _) → result ≡ Err (SettleError.Inbox error)
            → IsSomeAnd (slice_get self.old.incoming link) (λ s. (error ≡ TheOutOfMemory)
            ⊎ (info_to_dispose s.inbox.link.local_state (entry_at s.inbox.deliveries tag.now) tag.now ≡ Err error)) }
        ensures left { (error : _) → result ≡ Err (SettleError.Inbox error)
            → IsSomeAnd (slice_get self.old.incoming link) (λ s.
            self.new ≡ with_incoming link (left_unsettled error tag.now s) self.old) }
        ensures left_unasked { (result ≡ Err SettleError.NoSuchLink) ⊎ (result ≡ Err SettleError.NoOutcome) → self.new ≡ self.old }
    {
        match self.incoming.get_mut(link) {
            Some(from) => from.settle(tag),
            None => Err(SettleError::NoSuchLink),
        }
    }
}
