//! Dispositions that a ledger sends (2.6.12, 2.7.6).
ghost use Rattle.std.specs.Prelude.{◌≡◌, ◌≢◌, ◌∷◌, [], false, map, IfOk, OnOk, OnErr};
ghost use Rattle.std.specs.List.{filter_map};
ghost use Rattle.std.specs.Option.{option_map, option_to_list};
ghost use Rattle.amqp_link_types.specs.declared.delivery.UnsettledMessage.{UnsettledMessage as TheUnsettledMessage};
ghost use Rattle.amqp_link_types.specs.Entries.{Entries};
ghost use Rattle.amqp_link_dispositions.specs.Ending.{settled_at};
ghost use Rattle.amqp_link_dispositions.specs.Listed.{tags_in_order};
ghost use Rattle.amqp_link_sender.specs.Senders.{settles};
ghost use Rattle.amqp_link_sender.specs.SenderDisposes.{Dispositions, ended_at, after_disposing};
ghost use Rattle.amqp_link_ledger.specs.Disposing.{settled_outcome, copies_at};
ghost use Rattle.amqp_link_ledger.specs.Fates.{Change, after};

use crate::ledger::OutcomeLedger;
use crate::ledger::incoming::resolve_if_ended;
use crate::registrations::Registrations;
use amqp_link_endpoint::endpoint::LinkExt;
use amqp_link_endpoint::endpoint::target::LinkTarget;
use amqp_link_types::delivery::{DeliveryOutcome, Outcomes, UnsettledMessage};
use amqp_link_types::frame::LinkFrame;
use amqp_link_types::types::unsettled_map::UnsettledMap;
use amqp_link_types::types::{
    DeliveryNumber, DeliveryState, DeliveryTag, DispositionError, SenderSettleMode,
};
use amqp_link_values::copy::copy_of;
use std::alloc::{AllocError, Global};

impl<T: LinkTarget> OutcomeLedger<T> {
    /// The disposition of one delivery, with this state, settled or not, as by `SenderLink::dispose`. If it
    /// settles a pending delivery, the registration is resolved with the outcome that is returned. In mode
    /// `Settled` there is no disposition, and nothing is resolved.
    ///
    /// Refused only if it is out of memory, with nothing changed; in mode `Settled` it does not allocate.
    pub fn dispose(
        &mut self,
        delivery_id: DeliveryNumber,
        delivery_tag: &DeliveryTag,
        settled: bool,
        state: DeliveryState,
        batchable: bool,
    ) -> Result<(Vec<LinkFrame>, Outcomes), DispositionError>
        ensures frames { IfOk result (λ answer.
            Dispositions self.old.link settled state batchable (delivery_id ∷ []) answer.0.items) }
        ensures outcomes { IfOk result (λ answer.
            answer.1.items ≡ ended_at self.old.link settled (delivery_tag.now ∷ [])) }
        ensures link { OnOk result
            (self.new.link ≡ after_disposing self.old.link settled state (delivery_tag.now ∷ [])) }
        ensures records { OnOk result (self.new.records ≡ after (Change.Resolves
            (ended_at self.old.link settled (delivery_tag.now ∷ []))) self.old.records) }
        ensures memory { OnErr result (settles self.old.link.snd_settle_mode ≡ false) }
        ensures left { OnErr result (self.new ≡ self.old) }
    {
        let outcome = match self.copy_of_settled(settled, delivery_tag) {
            Ok(outcome) => outcome,
            Err(refused) => {
                drop(state);
                return Err(refused.into());
            }
        };
        match self
            .link
            .dispose(delivery_id, delivery_tag, settled, state, batchable)
        {
            Ok(answer) => {
                resolve_if_ended(&mut self.registrations, delivery_tag, outcome);
                Ok(answer)
            }
            Err(refused) => {
                drop(outcome);
                Err(refused)
            }
        }
    }

    /// The dispositions of several deliveries, with this state, settled or not, as by
    /// `SenderLink::batch_dispose`. The registrations of the pending deliveries that they settle are resolved
    /// with the outcomes that are returned. In mode `Settled` there is no disposition, and nothing is
    /// resolved.
    ///
    /// Refused only if it is out of memory, with nothing changed; in mode `Settled`, and of an empty list, it
    /// does not allocate.
    ///
    /// Its cost grows with the number of the listed deliveries, whose ids are sorted. One that is settled is
    /// looked up in the unsettled map twice: once for the copy of its outcome, and once to remove it.
    pub fn batch_dispose(
        &mut self,
        ids_and_tags: &[(DeliveryNumber, DeliveryTag)],
        settled: bool,
        state: DeliveryState,
        batchable: bool,
    ) -> Result<(Vec<LinkFrame>, Outcomes), DispositionError>
        ensures frames { IfOk result (λ answer.
            Dispositions self.old.link settled state batchable (map (λ pair. pair.0) ids_and_tags.now) answer.0.items) }
        ensures outcomes { IfOk result (λ answer.
            answer.1.items ≡ ended_at self.old.link settled (tags_in_order ids_and_tags.now)) }
        ensures link { OnOk result
            (self.new.link ≡ after_disposing self.old.link settled state (tags_in_order ids_and_tags.now)) }
        ensures records { OnOk result (self.new.records ≡ after (Change.Resolves
            (ended_at self.old.link settled (tags_in_order ids_and_tags.now))) self.old.records) }
        ensures memory { OnErr result ((settles self.old.link.snd_settle_mode ≡ false)
            × (ids_and_tags.now ≢ [])) }
        ensures left { OnErr result (self.new ≡ self.old) }
    {
        let copies = match self.copies_of_settled(settled, ids_and_tags) {
            Ok(copies) => copies,
            Err(refused) => {
                drop(state);
                return Err(refused.into());
            }
        };
        match self
            .link
            .batch_dispose(ids_and_tags, settled, state, batchable)
        {
            Ok(answer) => {
                resolve_listed(&mut self.registrations, ids_and_tags, copies);
                Ok(answer)
            }
            Err(refused) => {
                drop(copies);
                Err(refused)
            }
        }
    }

    // Copies of the outcomes of the listed deliveries, in the order of the list: nothing for one that does
    // not end, and an empty list if none is settled.
    fn copies_of_settled(
        &self,
        settled: bool,
        listed: &[(DeliveryNumber, DeliveryTag)],
    ) -> Result<Vec<Option<DeliveryOutcome>>, AllocError>
        ensures copies { IfOk result (λ copies.
            copies.items ≡ copies_at self.now.link settled listed.now) }
        ensures memory { OnErr result ((settles self.now.link.snd_settle_mode ≡ false) × (listed.now ≢ [])) }
    {
        if self.sends_settled() || !settled {
            return Ok(Vec::new(self.alloc));
        }
        let copies = settled_copies(self.alloc, self.link.unsettled_map(), listed)?;
        Ok(copies)
    }

    // A copy of the outcome of a delivery that its sender settles: none if it is not pending.
    fn copy_of_settled(
        &self,
        settled: bool,
        tag: &DeliveryTag,
    ) -> Result<Option<DeliveryOutcome>, AllocError>
        ensures copy { IfOk result (λ copy. option_to_list (option_map (λ outcome. (tag.now, outcome)) copy)
            ≡ ended_at self.now.link settled (tag.now ∷ [])) }
        ensures memory { OnErr result (settles self.now.link.snd_settle_mode ≡ false) }
    {
        if self.sends_settled() || !settled {
            return Ok(None);
        }
        copy_of_settled_in(self.link.unsettled_map(), tag)
    }

    // Whether the endpoint sends all deliveries settled.
    fn sends_settled(&self) -> bool
        ensures { result ≡ settles self.now.link.snd_settle_mode }
    {
        matches!(self.link.snd_settle_mode(), SenderSettleMode::Settled)
    }
}

// A copy of the outcome of a delivery of this map that its sender settles: none if it is not there.
fn copy_of_settled_in(
    unsettled: &UnsettledMap<UnsettledMessage>,
    tag: &DeliveryTag,
) -> Result<Option<DeliveryOutcome>, AllocError>
    ensures { IfOk result (λ copy. copy ≡ settled_outcome unsettled.now tag.now) }
{
    match unsettled.get(tag) {
        Some(entry) => Ok(Some(Ok(copy_of(&entry.state)?))),
        None => Ok(None),
    }
}

// The same of each listed delivery, in the order of the list. Does not allocate if none is listed.
fn settled_copies(
    alloc: Global,
    unsettled: &UnsettledMap<UnsettledMessage>,
    listed: &[(DeliveryNumber, DeliveryTag)],
) -> Result<Vec<Option<DeliveryOutcome>>, AllocError>
    ensures copies { IfOk result (λ copies.
        copies.items ≡ map (λ pair. settled_outcome unsettled.now pair.1) listed.now) }
    ensures memory { OnErr result (listed.now ≢ []) }
{
    if listed.is_empty() {
        return Ok(Vec::new(alloc));
    }
    let mut copies = Vec::with_capacity(alloc, listed.len())?;
    for (_, tag) in listed {
        copies.push(copy_of_settled_in(unsettled, tag)?)?;
    }
    Ok(copies)
}

// Resolves the pending registrations of the listed deliveries with these outcomes, of which there is one
// for each, or none at all.
fn resolve_listed(
    registrations: &mut Registrations,
    listed: &[(DeliveryNumber, DeliveryTag)],
    outcomes: Vec<Option<DeliveryOutcome>>,
)
    ensures none { outcomes.items ≡ [] → registrations.new.records ≡ registrations.old.records }
    ensures each { (own : Entries TheUnsettledMessage) → outcomes.items ≡ map (λ pair. settled_outcome own pair.1) listed.now
        → registrations.new.records ≡ after (Change.Resolves
        (filter_map (settled_at own) (map (λ pair. pair.1) listed.now))) registrations.old.records }
{
    let mut outcomes = outcomes.into_iter();
    for (_, tag) in listed {
        let Some(outcome) = outcomes.next() else {
            return;
        };
        resolve_if_ended(registrations, tag, outcome);
    }
}
