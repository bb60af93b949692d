//! How an unsettled delivery is resolved when its link is attached again (2.6.13).
//!
//! Both endpoints state in their attaches what they know of it. The sender resumes a delivery of which the
//! receiver has a front, sends one again that the receiver does not know, and settles or aborts the others.
ghost use Rattle.std.specs.Prelude.{◌≡◌, true, None, Some, IsSome, IsTrue, IfOk, IfErr, OnErr};
ghost use Rattle.amqp_link_types.specs.Entries.{Tag};
ghost use Rattle.amqp_link_core.specs.Resuming.{front, ended, sender_report, IsPlannedOf, IsPlannedFor};
ghost use Rattle.amqp_link_core.specs.Resuming.{is_resumed, row, resolution, resolution_by, outcome_by};
ghost use Rattle.amqp_link_core.specs.Resuming.{does_carry_tag, is_restated, is_ended_by, does_carry, does_outcome_carry};

pub(crate) mod states;

use crate::resumption::states::{has_ended_as, is_past, rest_of};
use amqp_link_types::delivery::{DeliveryOutcome, UnsettledMessage};
use amqp_link_types::types::{DeliveryState, DeliveryTag, MessageFormat, Payload, has_ended};
use amqp_link_values::copy::copy_of;
use std::alloc::AllocError;

/// What a sender sends of a delivery when its link is attached again (2.6.13).
#[derive(Debug, PartialEq, Eq, Drop)]
pub enum ResumingDelivery {
    /// An aborted transfer, which `SenderLink::send_abort` makes: the delivery is given up at both endpoints. Each attach lists
    /// it until that has arrived. The sender's payload of it is dropped: who wants to keep it copies it before the attach arrives.
    Abort {
        /// The format of the message; 0 if only the receiver knows the delivery.
        message_format: MessageFormat,
        /// The delivery's tag; none if only the receiver knows it.
        tag: Option<DeliveryTag>,
    },
    /// The whole delivery, as a new one.
    Resend(UnsettledMessage),
    /// The bytes that the receiver does not have.
    Resume {
        /// The delivery, with its whole payload.
        entry: UnsettledMessage,
        /// The bytes that are still to be sent.
        rest: Payload,
    },
    /// The sender's outcome again, since the receiver has another one.
    RestateOutcome {
        /// The delivery's tag.
        tag: DeliveryTag,
        /// Its whole payload.
        payload: Payload,
        /// The outcome at the sender.
        local_state: DeliveryState,
        /// The format of the message.
        message_format: MessageFormat,
    },
}

/// How a delivery is resolved when its link is attached again.
#[derive(Debug, PartialEq, Eq, Drop)]
pub enum Resolution {
    /// It is resumed, sent again or aborted, or its outcome is stated again.
    Resuming(ResumingDelivery),
    /// It has ended with this outcome.
    Outcome(DeliveryOutcome),
}

/// How an unsettled delivery is resolved, decided while its entry is still in the sender's unsettled map:
/// all that allocates is in it, so that the entry can be moved afterwards without an allocation.
#[derive(Debug, PartialEq, Eq, Drop)]
pub enum PlannedResolution {
    /// The whole delivery is sent again.
    Resend,
    /// The delivery is resumed with these bytes.
    Resume(Payload),
    /// The delivery is aborted.
    Abort,
    /// The delivery ended as the sender's entry states.
    LocalOutcome,
    /// The delivery ended as the receiver states.
    RemoteOutcome(DeliveryState),
    /// The sender states its outcome again.
    RestateOutcome,
}

impl PlannedResolution {
    /// Whether what is sent of the delivery carries its tag.
    pub fn carries_tag(&self) -> bool
        ensures { result ≡ does_carry_tag self.now }
    {
        matches!(
            self,
            PlannedResolution::Abort | PlannedResolution::RestateOutcome
        )
    }

    /// Whether the delivery has ended, so that nothing is sent of it.
    pub fn is_outcome(&self) -> bool
        ensures { result ≡ is_ended_by self.now }
    {
        matches!(
            self,
            PlannedResolution::LocalOutcome | PlannedResolution::RemoteOutcome(_)
        )
    }

    /// A copy of the outcome of a delivery with this entry: none if the delivery has not ended. Allocates
    /// only for a state that carries an error or annotations.
    pub fn copy_of_outcome(
        &self,
        local: &UnsettledMessage,
    ) -> Result<Option<DeliveryOutcome>, AllocError>
        ensures copy { IfOk result (λ copy. copy ≡ outcome_by self.now local.now) }
        ensures memory { OnErr result (does_outcome_carry (outcome_by self.now local.now) ≡ true) }
    {
        match self {
            PlannedResolution::LocalOutcome => Ok(Some(Ok(copy_of(&local.state)?))),
            PlannedResolution::RemoteOutcome(state) => Ok(Some(Ok(Some(state.clone()?)))),
            _ => Ok(None),
        }
    }

    /// Resolves the delivery of this entry as planned. `tag` has to be there if what is sent carries it. Does
    /// not allocate.
    pub fn resolve(self, tag: Option<DeliveryTag>, local: UnsettledMessage) -> Resolution
        requires tag { does_carry_tag self ≡ true → IsSome tag }
        requires state { is_restated self ≡ true → IsSome local.state }
        ensures { (name : Tag) → (does_carry_tag self ≡ true → tag ≡ Some name)
            → result ≡ resolution_by self name local }
    {
        match self {
            PlannedResolution::Resend => {
                drop(tag);
                Resolution::Resuming(ResumingDelivery::Resend(local))
            }
            PlannedResolution::Resume(rest) => {
                drop(tag);
                Resolution::Resuming(ResumingDelivery::Resume { entry: local, rest })
            }
            PlannedResolution::Abort => {
                let message_format = local.message_format;
                drop(local);
                Resolution::Resuming(ResumingDelivery::Abort {
                    message_format,
                    tag,
                })
            }
            PlannedResolution::LocalOutcome => {
                drop(tag);
                Resolution::Outcome(local.settle())
            }
            PlannedResolution::RemoteOutcome(state) => {
                drop(tag);
                Resolution::Outcome(local.settle_with_state(Some(state)))
            }
            PlannedResolution::RestateOutcome => restated(tag, local),
        }
    }
}

/// Decides how the delivery with this entry at the sender is resolved, if `remote` is what the receiver's
/// unsettled map has at its tag: no entry, a null state, or a state (2.6.13). A null state counts as received
/// up to section 0, offset 0.
///
/// May be out of memory only for a delivery that is resumed: the bytes that are still to be sent share the
/// buffer of its payload. They are those after the receiver's position, or the whole payload if that position
/// has no place in it.
pub fn plan_resumption(
    local: &UnsettledMessage,
    remote: Option<Option<DeliveryState>>,
) -> Result<PlannedResolution, AllocError>
    ensures planned { IfOk result (λ plan. IsPlannedFor plan local.now remote) }
    ensures memory { OnErr result ((tag : Tag) → is_resumed (resolution tag local.now remote) ≡ true) }
{
    match remote {
        None => Ok(plan_unreported(local)),
        Some(None) => plan_front(local, 0, 0),
        Some(
            Some(
                DeliveryState::Received {
                    section_number,
                    section_offset,
                },
            ),
        ) => plan_front(local, section_number, section_offset),
        Some(Some(remote)) => Ok(plan_end(local, remote)),
    }
}

/// Resolves the delivery with this tag, whose entry at the sender is `local`, if `remote` is what the
/// receiver's unsettled map has at the tag, by `plan_resumption` (2.6.13). An entry that is sent again or
/// resumed keeps its whole payload.
///
/// May be out of memory only for a delivery that is resumed; the entry is returned then.
pub fn resume_delivery(
    tag: DeliveryTag,
    local: UnsettledMessage,
    remote: Option<Option<DeliveryState>>,
) -> Result<Resolution, (AllocError, UnsettledMessage)>
    ensures ok { IfOk result (λ answer. answer ≡ resolution tag local remote) }
    ensures memory { OnErr result (IsTrue (is_resumed (resolution tag local remote))) }
    ensures back { IfErr result (λ error. error.1 ≡ local) }
{
    match plan_resumption(&local, remote) {
        Ok(plan) => Ok(plan.resolve(Some(tag), local)),
        Err(error) => {
            drop(tag);
            Err((error, local))
        }
    }
}

// The plan if the receiver does not know the delivery.
#[tactic(auto, using(crate::proofs::ResumingLemmas::unreported_rows))]
fn plan_unreported(local: &UnsettledMessage) -> PlannedResolution
    ensures { IsPlannedFor result local.now None }
{
    if has_ended(&local.state) {
        PlannedResolution::LocalOutcome
    } else {
        PlannedResolution::Resend
    }
}

// The plan if the receiver has a front that ends at this offset in this section.
#[tactic(auto, using(crate::proofs::ResumingLemmas::front_rows))]
fn plan_front(
    local: &UnsettledMessage,
    section_number: u32,
    section_offset: u64,
) -> Result<PlannedResolution, AllocError>
    ensures planned { IfOk result (λ plan.
        IsPlannedOf plan local.now (front section_number section_offset)) }
    ensures memory { OnErr result ((tag : Tag) → is_resumed
        (row tag local.now (sender_report local.now.state) (front section_number section_offset)) ≡ true) }
{
    if is_past(&local.state, section_number, section_offset) {
        return Ok(PlannedResolution::Abort);
    }
    let rest = rest_of(&local.payload, section_number, section_offset)?;
    Ok(PlannedResolution::Resume(rest))
}

// The plan if the receiver states how the delivery ended.
#[tactic(auto, using(crate::proofs::ResumingLemmas::end_rows))]
fn plan_end(local: &UnsettledMessage, remote: DeliveryState) -> PlannedResolution
    ensures { IsPlannedOf result local.now (ended remote) }
{
    if !has_ended(&local.state) {
        return PlannedResolution::RemoteOutcome(remote);
    }
    let is_same = has_ended_as(&local.state, &remote);
    drop(remote);
    if is_same {
        PlannedResolution::LocalOutcome
    } else {
        PlannedResolution::RestateOutcome
    }
}

// The resolution that states the sender's outcome again.
fn restated(tag: Option<DeliveryTag>, local: UnsettledMessage) -> Resolution
    requires tag { IsSome tag }
    requires state { IsSome local.state }
    ensures { (name : Tag) → tag ≡ Some name → result
        ≡ resolution_by PlannedResolution.RestateOutcome name local }
{
    let UnsettledMessage {
        payload,
        state,
        message_format,
    } = local;
    let (Some(tag), Some(local_state)) = (tag, state) else {
        unreachable!()
    };
    Resolution::Resuming(ResumingDelivery::RestateOutcome {
        tag,
        payload,
        local_state,
        message_format,
    })
}
