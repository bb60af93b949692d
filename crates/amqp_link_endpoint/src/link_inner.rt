//! The part of an endpoint that both roles hold alike, and the attach that it sends (2.6.3, 2.7.3).
ghost use Rattle.std.specs.Prelude.{◌≡◌, ◌⊎◌, ◌↔◌, true, false, [], if◌then◌else◌, None, Some, IfOk, IfErr, IsErrOf, IsTrue, OnOk, OnErr, is_none, unwrap_or, ◌≤◌, length, vec_capacity};
ghost use Rattle.std.specs.Option.{option_or};
ghost use Rattle.amqp_link_endpoint.specs.AttachSent.{SendsAttach, IsTooLarge};
ghost use Rattle.amqp_link_endpoint.specs.Attaching.{FitsFrame, with_entries};
ghost use Rattle.amqp_link_endpoint.specs.LinkStates.{Call, next_state};
ghost use Rattle.amqp_link_endpoint.specs.Links.{inner_of_parts, released, with_properties, without_session};
ghost use Rattle.amqp_link_endpoint.specs.Shown.{attached_inner, counted_attach, shown_alone, shown_attached, shown_kept, shown_of, stated_count};
ghost use Rattle.amqp_link_state.specs.declared.state.LinkState.{LinkState as TheState};

use crate::endpoint::attached::{name_and_properties_of, sent_limit, termini_of};
use crate::endpoint::dividing::{attach_frame, divided, fits_whole};
use crate::endpoint::failing::AttachFailure;
use crate::endpoint::table::{after_lost_session, after_sent_attach};
use crate::endpoint::target::LinkTarget;
use crate::link_parts::LinkParts;
use crate::link_role::LinkRole;
use amqp_link_state::state::{LinkFlowState, LinkState};
use amqp_link_types::delivery::Outcomes;
use amqp_link_types::frame::LinkFrame;
use amqp_link_types::types::unsettled_map::UnsettledMap;
use amqp_link_types::types::{
    Attach, DeliveryState, Fields, Handle, InputHandle, OutputHandle, ReceiverSettleMode, Role,
    SenderSettleMode, SequenceNo, Source, Symbols, Text,
};
use amqp_link_values::copy::copies_of;
use std::alloc::{AllocError, Global};

/// What an endpoint of role `R` holds beside its unsettled deliveries.
#[derive(Drop)]
pub struct LinkInner<R, T: Drop> {
    /// The state between attach and detach.
    pub local_state: LinkState,
    /// The name of the link.
    pub name: Text,
    /// When the sender settles.
    pub snd_settle_mode: SenderSettleMode,
    /// When the receiver settles.
    pub rcv_settle_mode: ReceiverSettleMode,
    /// The source.
    pub source: Option<Source>,
    /// The target.
    pub target: Option<T>,
    /// The largest message in bytes; 0 is no limit.
    pub max_message_size: u64,
    /// The capabilities that this endpoint offers.
    pub offered_capabilities: Option<Symbols>,
    /// The capabilities that this endpoint would have the peer offer.
    pub desired_capabilities: Option<Symbols>,
    /// The handle under which this endpoint sends.
    pub output_handle: Option<OutputHandle>,
    /// The handle under which the peer sends.
    pub input_handle: Option<InputHandle>,
    /// The delivery-counts, the link-credit and the flags.
    pub flow_state: LinkFlowState<R>,
    /// The largest size of a frame in bytes, as `LinkParts` counts it.
    pub max_frame_size: u32,
    /// Whether the source of the peer's attach is verified.
    pub verify_incoming_source: bool,
    /// Whether the target of the peer's attach is verified.
    pub verify_incoming_target: bool,
}

// The handle at which an attach is sent, and the states after one that states all unsettled deliveries and after one
// that does not.
#[derive(Clone, Copy)]
struct AttachStep {
    handle: OutputHandle,
    states: (LinkState, LinkState),
}

// The output handle, or 0 if there is none (2.6.2).
fn handle_or_zero(handle: Option<OutputHandle>) -> OutputHandle
    ensures { result ≡ unwrap_or handle (record { 0 = 0 }) }
{
    handle.unwrap_or(OutputHandle(0))
}

// The state after an attach that is sent, of those after a complete one and after an incomplete one (2.7.3).
fn step_of(incomplete: bool, steps: (LinkState, LinkState)) -> LinkState
    ensures { (state : TheState) → next_state Call.SendAttach false state ≡ Some steps.0
        → next_state Call.SendAttach true state ≡ Some steps.1
        → next_state Call.SendAttach incomplete state ≡ Some result }
{
    if incomplete { steps.1 } else { steps.0 }
}

// The unsettled deliveries that an attach states: none if the link is reattached.
fn entries_to_send<R: LinkRole>(
    alloc: Global,
    is_reattaching: bool,
    unsettled: &UnsettledMap<R::Entry>,
) -> Result<UnsettledMap<Option<DeliveryState>>, AllocError>
    ensures { IfOk result (λ entries. entries ≡ (if is_reattaching then [] else R.stated unsettled.now)) }
{
    if is_reattaching {
        Ok(UnsettledMap::new(alloc))
    } else {
        R::stated(unsettled)
    }
}

// Room for the outcomes of the deliveries if the link is reattached.
fn room_for_outcomes<R: LinkRole>(
    alloc: Global,
    is_reattaching: bool,
    unsettled: &UnsettledMap<R::Entry>,
) -> Result<Outcomes, AllocError>
    ensures none_yet { IfOk result (λ outcomes. outcomes.items ≡ []) }
    ensures room { IfOk result (λ outcomes. is_reattaching ≡ true
        → length (R.ended unsettled.now) ≤ vec_capacity outcomes) }
{
    if is_reattaching {
        R::room_for_outcomes(alloc, unsettled)
    } else {
        Ok(Vec::new(alloc))
    }
}

impl<R: LinkRole, T: LinkTarget> LinkInner<R, T> {
    /// What is made of these parts: not attached, without handles. Does not allocate.
    pub fn new(parts: LinkParts<T>) -> LinkInner<R, T>
        ensures { result ≡ inner_of_parts parts }
    {
        LinkInner {
            local_state: LinkState::Unattached,
            name: parts.name,
            snd_settle_mode: parts.snd_settle_mode,
            rcv_settle_mode: parts.rcv_settle_mode,
            source: parts.source,
            target: parts.target,
            max_message_size: parts.max_message_size,
            offered_capabilities: parts.offered_capabilities,
            desired_capabilities: parts.desired_capabilities,
            output_handle: None,
            input_handle: None,
            flow_state: R::flow_state_of(parts.flow_state),
            max_frame_size: parts.max_frame_size,
            verify_incoming_source: parts.verify_incoming_source,
            verify_incoming_target: parts.verify_incoming_target,
        }
    }

    // Moves to another state, and releases the output handle.
    pub(crate) fn release_handle(&mut self, next: LinkState)
        ensures { self.new ≡ released next self.old }
    {
        self.local_state = next;
        self.output_handle = None;
    }

    // Records that the session is gone.
    pub(crate) fn lose_session(&mut self)
        ensures { self.new ≡ without_session self.old }
    {
        self.local_state = after_lost_session(self.local_state);
        self.output_handle = None;
        self.input_handle = None;
    }

    // The attach at an output handle with this delivery-count, without unsettled deliveries.
    fn whole_attach(&self, handle: OutputHandle, count: SequenceNo) -> Result<Attach, AllocError>
        requires { (t c : T) → T.is_clone t c → c ≡ t }
        ensures { IfOk result (λ attach. attach ≡ counted_attach (shown_alone R.role T.sent_as self.now) count handle) }
    {
        let (name, properties) = name_and_properties_of(&self.name, self.flow_state.properties())?;
        let capabilities = copies_of(&self.offered_capabilities, &self.desired_capabilities);
        let Ok((offered_capabilities, desired_capabilities)) = capabilities else {
            drop((name, properties));
            return Err(AllocError);
        };
        let Ok((source, target)) = termini_of(&self.source, &self.target) else {
            drop((name, properties, offered_capabilities, desired_capabilities));
            return Err(AllocError);
        };
        Ok(Attach {
            name,
            handle: handle.into(),
            role: R::into_role(),
            snd_settle_mode: self.snd_settle_mode,
            rcv_settle_mode: self.rcv_settle_mode,
            source,
            target,
            unsettled: None,
            incomplete_unsettled: false,
            initial_delivery_count: Some(count),
            max_message_size: sent_limit(self.max_message_size),
            offered_capabilities,
            desired_capabilities,
            properties,
        })
    }

    // Whether an attach that states these unsettled deliveries and this delivery-count fits a frame of that size.
    // Without an output handle it is measured with handle 0. Refused only if it is out of memory.
    pub(crate) fn complete_attach_fits(
        &self,
        unsettled: &UnsettledMap<R::Entry>,
        max_frame_size: u32,
        count: SequenceNo,
    ) -> Result<bool, AllocError>
        requires { (t c : T) → T.is_clone t c → c ≡ t }
        ensures { IfOk result (λ fits. IsTrue fits ↔ FitsFrame (with_entries
            (counted_attach (shown_alone R.role T.sent_as self.now) count (unwrap_or self.now.output_handle (record { 0 = 0 })))
            (R.stated unsettled.now) 0) max_frame_size) }
    {
        let entries = R::stated(unsettled)?;
        let Ok(attach) = self.whole_attach(handle_or_zero(self.output_handle), count) else {
            drop(entries);
            return Err(AllocError);
        };
        Ok(fits_whole(attach, entries, max_frame_size))
    }

    // The delivery-count that an attach states: a sender's initial one while it is unattached, and its present one
    // in each other state, as the deliveries before it are not sent again (2.6.4); a receiver's initial one.
    fn count_to_send(&self) -> SequenceNo
        ensures { result ≡ stated_count R.role self.now.local_state self.now.flow_state }
    {
        match (R::into_role(), self.local_state) {
            (Role::Receiver, _) | (Role::Sender, LinkState::Unattached) => {
                self.flow_state.initial_delivery_count()
            }
            _ => self.flow_state.delivery_count(),
        }
    }

    // The handle and the states of an attach that is sent. Refused with illegal state without output handle, then if
    // there is no transition from this state. Does not allocate.
    fn attach_step<E: AttachFailure>(&self) -> Result<AttachStep, E>
        ensures handle { IfOk result (λ step. self.now.output_handle ≡ Some step.handle) }
        ensures complete { IfOk result (λ step. next_state Call.SendAttach false self.now.local_state ≡ Some step.states.0) }
        ensures incomplete { IfOk result (λ step. next_state Call.SendAttach true self.now.local_state ≡ Some step.states.1) }
        ensures refused { IfErr result (λ error. (error ≡ E.illegal_state) × ((self.now.output_handle ≡ None)
            ⊎ (next_state Call.SendAttach false self.now.local_state ≡ None))) }
    {
        let Some(handle) = self.output_handle else {
            return Err(E::illegal_state());
        };
        let Some(states) = after_sent_attach(self.local_state) else {
            return Err(E::illegal_state());
        };
        Ok(AttachStep { handle, states })
    }

    // The frame of the attach to send with as many of these unsettled deliveries as fit, or with none if the link is
    // reattached, and the state after it.
    //
    // Refused with too large if even an empty unsettled map does not fit. Out of memory may come before that.
    fn attach_to_send<E: AttachFailure>(
        &self,
        alloc: Global,
        step: AttachStep,
        is_reattaching: bool,
        unsettled: &UnsettledMap<R::Entry>,
    ) -> Result<(LinkFrame, LinkState), E>
        requires copies { (t c : T) → T.is_clone t c → c ≡ t }
        requires handle { self.now.output_handle ≡ Some step.handle }
        requires complete { next_state Call.SendAttach false self.now.local_state ≡ Some step.states.0 }
        requires incomplete { next_state Call.SendAttach true self.now.local_state ≡ Some step.states.1 }
        ensures sent { IfOk result (λ plan. SendsAttach (shown_alone R.role T.sent_as self.now)
            (if is_reattaching then [] else R.stated unsettled.now) plan.0 plan.1) }
        ensures refused { IfErr result (λ error. (error ≡ E.out_of_memory)
            ⊎ ((error ≡ E.too_large) × IsTooLarge (shown_alone R.role T.sent_as self.now)
            (if is_reattaching then [] else R.stated unsettled.now))) }
    {
        let Ok(entries) = entries_to_send::<R>(alloc, is_reattaching, unsettled) else {
            return Err(E::out_of_memory());
        };
        let Ok(whole) = self.whole_attach(step.handle, self.count_to_send()) else {
            drop(entries);
            return Err(E::out_of_memory());
        };
        let Some(attach) = divided(whole, entries, self.max_frame_size) else {
            return Err(E::too_large());
        };
        let next = step_of(attach.incomplete_unsettled, step.states);
        match attach_frame(alloc, attach) {
            Ok(frame) => Ok((frame, next)),
            Err(_) => Err(E::out_of_memory()),
        }
    }

    // Moves to the state after the attach that was sent; the delivery-count that it has stated is the initial one.
    // Does not allocate.
    fn attach_as(&mut self, next: LinkState)
        ensures { self.new ≡ attached_inner R.role next self.old }
    {
        let count = self.count_to_send();
        self.flow_state.initial_delivery_count_mut(|_| count);
        self.local_state = next;
    }

    /// Makes the attach to send, with as many of these unsettled deliveries as fit, or with none if the link is
    /// reattached, and moves to the state after it; the delivery-count that it states is the initial one. An endpoint
    /// that is reattached keeps none of its deliveries: the outcome of each is returned, in their order.
    ///
    /// Refused in this order, with nothing changed: illegal state without output handle, then if there is no transition
    /// from this state; too large if even an empty unsettled map does not fit. Out of memory may come before the last.
    pub fn send_attach<E: AttachFailure>(
        &mut self,
        alloc: Global,
        is_reattaching: bool,
        unsettled: &mut UnsettledMap<R::Entry>,
    ) -> Result<(LinkFrame, Outcomes), E>
        requires { (t c : T) → T.is_clone t c → c ≡ t }
        ensures sent { IfOk result (λ sent. SendsAttach (shown_alone R.role T.sent_as self.old)
            (if is_reattaching then [] else R.stated unsettled.old) sent.0 self.new.local_state) }
        ensures after { OnOk result (self.new ≡ attached_inner R.role self.new.local_state self.old) }
        ensures ended { IfOk result (λ sent. sent.1.items
            ≡ (if is_reattaching then R.ended unsettled.old else [])) }
        ensures emptied { OnOk result (unsettled.new ≡ (if is_reattaching then [] else unsettled.old)) }
        ensures shown { OnOk result (shown_of R.role T.sent_as self.new unsettled.new (R.stated unsettled.new) (R.ended unsettled.new)
            ≡ shown_attached (shown_kept is_reattaching (shown_of R.role T.sent_as self.old unsettled.old
            (R.stated unsettled.old) (R.ended unsettled.old))) self.new.local_state) }
        ensures refused { IfErr result (λ error. (error ≡ E.out_of_memory)
            ⊎ ((error ≡ E.illegal_state) × ((self.old.output_handle ≡ None)
            ⊎ (next_state Call.SendAttach false self.old.local_state ≡ None)))
            ⊎ ((error ≡ E.too_large) × IsTooLarge (shown_alone R.role T.sent_as self.old)
            (if is_reattaching then [] else R.stated unsettled.old))) }
        ensures memory { IsErrOf result E.out_of_memory
            → (is_none self.old.output_handle ≡ false)
            × (is_none (next_state Call.SendAttach false self.old.local_state) ≡ false) }
        ensures left { OnErr result ((self.new ≡ self.old) × (unsettled.new ≡ unsettled.old)) }
    {
        let step = self.attach_step::<E>()?;
        let Ok(outcomes) = room_for_outcomes::<R>(alloc, is_reattaching, unsettled) else {
            return Err(E::out_of_memory());
        };
        let (frame, next) = self.attach_to_send::<E>(alloc, step, is_reattaching, unsettled)?;
        // All tests and all allocations are done: from here on nothing can fail.
        self.attach_as(next);
        if is_reattaching {
            Ok((frame, R::end_all(unsettled.take_all(), outcomes)))
        } else {
            Ok((frame, outcomes))
        }
    }

    /// Records that an attach has moved the link, and the peer's handle. Does not allocate.
    pub fn record_remote_attach(&mut self, handle: Handle, next: LinkState)
        ensures { self.new ≡ record self.old { local_state = next; input_handle = Some (record { 0 = handle.0 }) } }
    {
        self.local_state = next;
        self.input_handle = Some(InputHandle(handle.0));
    }

    /// Replaces the properties, if there are new ones. Does not allocate.
    pub fn take_properties(&mut self, properties: Option<Fields>)
        ensures { self.new ≡ with_properties (option_or properties self.old.flow_state.properties) self.old }
    {
        if let Some(properties) = properties {
            drop(self.flow_state.properties_mut().replace(properties));
        }
    }
}
