//! The attach that arrives at a sender (2.6.3, 2.6.4), and the exchange of unsettled deliveries (2.6.13).
//!
//! It is taken in two halves: a plan, which tests and allocates, and the change itself, which does neither.
//! A caller that keeps records of outcomes copies them between the two.
ghost use Rattle.std.specs.Prelude.{◌≡◌, ◌⊎◌, ◌||◌, not, true, None, Some, Ok, Err, IfOk, IfErr, OnOk, OnErr, IsErrOf, IsErrAnd, IfNone, MatchOption, MatchResult, [], unwrap_or, if◌then◌else◌};
ghost use Rattle.std.specs.Option.{option_or};
ghost use Rattle.amqp_link_types.specs.declared.types.attach.Attach.{Attach as TheAttach};
ghost use Rattle.amqp_link_endpoint.specs.AttachFields.{remote_entries, merged_properties, merging_allocates, next_of};
ghost use Rattle.amqp_link_exchange.specs.Exchanges.{outcomes_returned};
ghost use Rattle.amqp_link_exchange.specs.Plans.{IsPlanOf};
ghost use Rattle.amqp_link_sender.specs.SenderAttaches.{is_nothing, resumption_in, exchange_in};
ghost use Rattle.amqp_link_sender.specs.SenderAttaches;
ghost use Rattle.amqp_link_endpoint.specs.AttachTests.{verified};
ghost use Rattle.amqp_link_endpoint.specs.Targets.{target_of};
ghost use Rattle.amqp_link_verification.specs.Termini.{verdict};
ghost use Rattle.amqp_link_sender.specs.SenderAttaches.{sender_source_verdict, sender_termini_refusal, sender_refusal, sender_taken, sender_left, sender_taking_allocates, IsAttachPlan};

use crate::sender_link::SenderLink;
use amqp_link_endpoint::endpoint::attached::{get_max_message_size, merged_with};
use amqp_link_endpoint::endpoint::incoming::read;
use amqp_link_endpoint::endpoint::table::after_incoming_attach;
use amqp_link_endpoint::endpoint::target::LinkTarget;
use amqp_link_exchange::{ExchangePlan, ResumingDeliveries, exchange, plan_exchange};
use amqp_link_state::state::LinkState;
use amqp_link_types::delivery::{Outcomes, UnsettledMessage};
use amqp_link_types::types::unsettled_map::UnsettledMap;
use amqp_link_types::types::{
    Attach, DeliveryState, Fields, Handle, ReceiverSettleMode, SenderAttachError, SenderSettleMode,
    Source, TargetArchetype,
};
use amqp_link_verification::VerifySource;
use std::alloc::{AllocError, Global};

/// What follows once a sender has exchanged attaches.
#[derive(Debug, Drop)]
pub enum SenderAttachExchange {
    /// Neither endpoint has an unsettled delivery.
    Complete,
    /// An attach did not state all unsettled deliveries. The list has every own one, as in `Resume`; those that
    /// the receiver's attach states are resumed, the others put back, and then the link is attached anew
    /// (`Link`, **Detach**) until an exchange is complete (2.6.13).
    IncompleteUnsettled(ResumingDeliveries),
    /// These deliveries are to be resumed.
    Resume(ResumingDeliveries),
}

impl SenderAttachExchange {
    ghost use Rattle.amqp_link_sender.specs.declared.sender_link.incoming.SenderAttachExchange.TheVariants.{Complete};

    /// `Ok` if the exchange is `Complete`, otherwise this error.
    pub fn complete_or<E: Drop>(self, error: E) -> Result<(), E>
        ensures complete { self ≡ Complete → result ≡ Ok tt }
        ensures incomplete { (self ≡ Complete → ⊥) → result ≡ Err error }
    {
        match self {
            SenderAttachExchange::Complete => Ok(()),
            other => {
                drop(other);
                Err(error)
            }
        }
    }
}

/// An attach that has passed all tests of a sender, with all that has to be allocated to take it.
#[derive(Drop)]
pub struct AttachPlan<T: LinkTarget> {
    /// The state after it.
    pub next: LinkState,
    /// The peer's handle.
    pub handle: Handle,
    /// The link's target after it.
    pub target: T,
    /// When the receiver settles.
    pub rcv_settle_mode: ReceiverSettleMode,
    /// The largest message after it, in bytes; 0 is no limit.
    pub max_message_size: u64,
    /// The link's properties after it, if it changes them.
    pub properties: Option<Fields>,
    /// Whether neither endpoint has an unsettled delivery.
    pub is_nothing: bool,
    /// How the unsettled deliveries are resolved.
    pub exchange: ExchangePlan,
}

/// The first half of `on_incoming_attach`: tests the attach, with the refusals of that call and what they
/// leave, and makes the plan. A link whose attach was planned has not changed. `amqp_link` does not pass the halves on.
pub fn plan_incoming_attach<T: LinkTarget>(
    link: &mut SenderLink<T>,
    attach: Attach,
) -> Result<AttachPlan<T>, SenderAttachError>
    ensures planned { IfOk result (λ plan. IsAttachPlan T.admitted link.old attach plan) }
    ensures same { OnOk result (link.new ≡ link.old) }
    ensures refused { MatchResult result
        (λ _. sender_refusal T.admitted T.refused_by_sender link.old attach ≡ None)
        (λ error. (error ≡ SenderAttachError.OutOfMemory)
        ⊎ (sender_refusal T.admitted T.refused_by_sender link.old attach ≡ Some error)) }
    ensures memory { IsErrOf result SenderAttachError.OutOfMemory
        → sender_refusal T.admitted T.refused_by_sender link.old attach ≡ None }
    ensures growth { IsErrOf result SenderAttachError.OutOfMemory → sender_taking_allocates link.old attach ≡ true }
    ensures left { IfErr result (λ error. link.new ≡ sender_left T.admitted T.refused_by_sender error link.old attach) }
{
    link.plan_remote_attach(attach)
}

/// The second half: takes the attach as planned. Does not allocate.
pub fn commit_incoming_attach<T: LinkTarget>(
    link: &mut SenderLink<T>,
    plan: AttachPlan<T>,
) -> (SenderAttachExchange, Outcomes)
    requires { (attach : TheAttach) × IsAttachPlan T.admitted link.old attach plan }
    ensures taken { (attach : TheAttach) → IsAttachPlan T.admitted link.old attach plan
        → link.new ≡ sender_taken T.admitted link.old attach }
    ensures exchange { (attach : TheAttach) → IsAttachPlan T.admitted link.old attach plan
        → result.0 ≡ exchange_in plan.next link.old.unsettled (remote_entries attach) }
    ensures outcomes { (attach : TheAttach) → IsAttachPlan T.admitted link.old attach plan
        → result.1.items ≡ outcomes_returned link.old.unsettled (remote_entries attach) }
{
    link.take_remote_attach(plan)
}

// Whether one endpoint settles what the other leaves unsettled.
fn disagree(own: SenderSettleMode, theirs: SenderSettleMode) -> bool
    ensures { result ≡ SenderAttaches.disagree own theirs }
{
    matches!(
        (own, theirs),
        (SenderSettleMode::Settled, SenderSettleMode::Unsettled)
            | (SenderSettleMode::Unsettled, SenderSettleMode::Settled)
    )
}

impl<T: LinkTarget> SenderLink<T> {
    fn take_target(&mut self, target: T, mode: ReceiverSettleMode)
        ensures { self.new ≡ record self.old { target = Some target; rcv_settle_mode = mode } }
    {
        self.inner.target = Some(target);
        self.inner.rcv_settle_mode = mode;
    }

    // Verifies the peer's source beside the link's own, if the link verifies sources.
    fn verify_source(&self, source: &Option<Source>) -> Result<(), SenderAttachError>
        ensures { MatchResult result
            (λ _. sender_source_verdict self.now source.now ≡ None)
            (λ error. sender_source_verdict self.now source.now ≡ Some error) }
    {
        if !self.inner.verify_incoming_source {
            return Ok(());
        }
        match (&self.inner.source, source) {
            (Some(own), Some(theirs)) => own.verify_as_sender(theirs),
            _ => Ok(()),
        }
    }

    // Verifies the peer's target beside the link's own, if the link verifies targets.
    fn verify_target(&self, theirs: &T) -> Result<(), SenderAttachError>
        ensures refused { result ≡ verdict (verified self.now.verify_incoming_target
            T.refused_by_sender self.now.target (Some theirs.now)) }
        ensures memory { IsErrOf result SenderAttachError.OutOfMemory → ⊥ }
    {
        if !self.inner.verify_incoming_target {
            return Ok(());
        }
        match &self.inner.target {
            Some(own) => own.verify_as_sender(theirs),
            None => Ok(()),
        }
    }

    // The target that the link takes from an attach with these termini, or why it is refused. Does not
    // allocate.
    fn target_to_take(
        &self,
        source: Option<Source>,
        target: Option<TargetArchetype>,
    ) -> Result<T, SenderAttachError>
        ensures taken { IfOk result (λ taken. target_of T.admitted target ≡ Some taken) }
        ensures refused { MatchResult result
            (λ _. sender_termini_refusal T.admitted T.refused_by_sender self.now source target ≡ None)
            (λ error. sender_termini_refusal T.admitted T.refused_by_sender self.now source target ≡ Some error) }
        ensures memory { IsErrOf result SenderAttachError.OutOfMemory → ⊥ }
    {
        if let Err(refused) = self.verify_source(&source) {
            drop((source, target));
            return Err(refused);
        }
        drop(source);
        let Some(target) = target else {
            return Err(SenderAttachError::IncomingTargetIsNone);
        };
        let Some(target) = T::from_archetype(target) else {
            return Err(SenderAttachError::CoordinatorIsNotImplemented);
        };
        self.verify_target(&target)?;
        Ok(target)
    }

    // The first half of `on_incoming_attach`.
    pub(super) fn plan_remote_attach(
        &mut self,
        attach: Attach,
    ) -> Result<AttachPlan<T>, SenderAttachError>
        ensures planned { IfOk result (λ plan. IsAttachPlan T.admitted self.old attach plan) }
        ensures same { OnOk result (self.new ≡ self.old) }
        ensures refused { MatchResult result
            (λ _. sender_refusal T.admitted T.refused_by_sender self.old attach ≡ None)
            (λ error. (error ≡ SenderAttachError.OutOfMemory)
            ⊎ (sender_refusal T.admitted T.refused_by_sender self.old attach ≡ Some error)) }
        ensures memory { IsErrOf result SenderAttachError.OutOfMemory
            → sender_refusal T.admitted T.refused_by_sender self.old attach ≡ None }
        ensures growth { IsErrOf result SenderAttachError.OutOfMemory → sender_taking_allocates self.old attach ≡ true }
        ensures left { IfErr result (λ error. self.new ≡ sender_left T.admitted T.refused_by_sender error self.old attach) }
        ensures step { MatchOption (next_of self.old.local_state attach)
            (IsErrAnd result (λ error. error ≡ SenderAttachError.IllegalState))
            (λ next. IfErr result (λ error. (error ≡ SenderAttachError.OutOfMemory)
            ⊎ (self.new.local_state ≡ next))) }
        ensures no_step { IfNone (next_of self.old.local_state attach) (self.new ≡ self.old) }
    {
        let came = read(attach);
        let Some(next) = after_incoming_attach(self.inner.local_state, came.incomplete_unsettled)
        else {
            drop(came);
            return Err(SenderAttachError::IllegalState);
        };
        let target = match self.target_to_take(came.source, came.target) {
            Ok(target) => target,
            Err(refused) => {
                self.inner.record_remote_attach(came.handle, next);
                drop((came.unsettled, came.properties));
                return Err(refused);
            }
        };
        if disagree(self.inner.snd_settle_mode, came.snd_settle_mode) {
            self.inner.record_remote_attach(came.handle, next);
            self.take_target(target, came.rcv_settle_mode);
            drop((came.unsettled, came.properties));
            let refused = SenderAttachError::SndSettleModeNotSupported;
            return Err(refused);
        }
        let rest = self.plan_rest(came.unsettled, came.properties);
        let Ok((is_nothing, exchange, properties)) = rest else {
            drop(target);
            return Err(SenderAttachError::OutOfMemory);
        };
        let limit = get_max_message_size(self.inner.max_message_size, came.max_message_size);
        Ok(AttachPlan {
            next,
            handle: came.handle,
            target,
            rcv_settle_mode: came.rcv_settle_mode,
            max_message_size: limit,
            properties,
            is_nothing,
            exchange,
        })
    }

    // Plans the exchange of the unsettled deliveries and merges the properties, for an attach that has passed
    // all tests: all that allocates.
    fn plan_rest(
        &self,
        unsettled: Option<UnsettledMap<Option<DeliveryState>>>,
        properties: Option<Fields>,
    ) -> Result<(bool, ExchangePlan, Option<Fields>), AllocError>
        ensures nothing { IfOk result (λ plan. plan.0 ≡ is_nothing self.now.unsettled (unwrap_or unsettled [])) }
        ensures exchange { IfOk result (λ plan. IsPlanOf plan.1 self.now.unsettled (unwrap_or unsettled [])) }
        ensures properties { IfOk result (λ plan. option_or plan.2 self.now.flow_state.properties
            ≡ merged_properties self.now.flow_state.properties properties) }
        ensures memory { OnErr result ((not (is_nothing self.now.unsettled (unwrap_or unsettled []))
            || merging_allocates self.now.flow_state.properties properties) ≡ true) }
    {
        let remote = entries_of(self.alloc, unsettled);
        let is_nothing = are_empty(&self.unsettled, &remote);
        let properties = match merged_with(self.inner.flow_state.properties(), properties) {
            Ok(properties) => properties,
            Err(refused) => {
                drop(remote);
                return Err(refused);
            }
        };
        match plan_exchange(self.alloc, &self.unsettled, remote) {
            Ok(exchange) => Ok((is_nothing, exchange, properties)),
            Err(refused) => {
                drop(properties);
                Err(refused)
            }
        }
    }

    // The second half of `on_incoming_attach`.
    pub(super) fn take_remote_attach(
        &mut self,
        plan: AttachPlan<T>,
    ) -> (SenderAttachExchange, Outcomes)
        requires { (attach : TheAttach) × IsAttachPlan T.admitted self.old attach plan }
        ensures taken { (attach : TheAttach) → IsAttachPlan T.admitted self.old attach plan
            → self.new ≡ sender_taken T.admitted self.old attach }
        ensures exchange { (attach : TheAttach) → IsAttachPlan T.admitted self.old attach plan
            → result.0 ≡ exchange_in plan.next self.old.unsettled (remote_entries attach) }
        ensures outcomes { (attach : TheAttach) → IsAttachPlan T.admitted self.old attach plan
            → result.1.items ≡ outcomes_returned self.old.unsettled (remote_entries attach) }
    {
        let AttachPlan {
            next,
            handle,
            target,
            rcv_settle_mode,
            max_message_size,
            properties,
            is_nothing,
            exchange: planned,
        } = plan;
        self.inner.record_remote_attach(handle, next);
        self.take_target(target, rcv_settle_mode);
        self.inner.take_properties(properties);
        self.inner.max_message_size = max_message_size;
        let (list, outcomes) = exchange(self.unsettled.take_all(), planned);
        (exchange_of(next, is_nothing, list), outcomes)
    }
}

// Whether neither endpoint has an unsettled delivery.
fn are_empty(
    own: &UnsettledMap<UnsettledMessage>,
    remote: &UnsettledMap<Option<DeliveryState>>,
) -> bool
    ensures { result ≡ is_nothing own.now remote.now }
{
    own.is_empty() && remote.is_empty()
}

// The unsettled deliveries that an attach states: none if it has no map.
fn entries_of(
    alloc: Global,
    unsettled: Option<UnsettledMap<Option<DeliveryState>>>,
) -> UnsettledMap<Option<DeliveryState>>
    ensures { result ≡ unwrap_or unsettled [] }
{
    match unsettled {
        Some(entries) => entries,
        None => UnsettledMap::new(alloc),
    }
}

// What follows in this state, with these deliveries to resume.
fn exchange_of(state: LinkState, is_nothing: bool, list: ResumingDeliveries) -> SenderAttachExchange
    ensures { result ≡ (if is_nothing then SenderAttachExchange.Complete else resumption_in state list) }
{
    if is_nothing {
        drop(list);
        return SenderAttachExchange::Complete;
    }
    match state {
        LinkState::IncompleteAttachExchanged
        | LinkState::IncompleteAttachReceived
        | LinkState::IncompleteAttachSent => SenderAttachExchange::IncompleteUnsettled(list),
        _ => SenderAttachExchange::Resume(list),
    }
}
