//! The calls that are the same at either role, over what an endpoint holds (2.6.3 to 2.6.6).
ghost use Rattle.std.specs.Prelude.{◌≡◌, Option};
ghost use Rattle.std.specs.Borrow.{Lends, sem};
ghost use Rattle.amqp_link_state.specs.declared.state.LinkState.{LinkState as TheState};
ghost use Rattle.amqp_link_types.specs.declared.types.definitions.OutputHandle.{OutputHandle as TheHandle};
ghost use Rattle.amqp_link_types.specs.Entries.{Entries};
ghost use Rattle.amqp_link_endpoint.specs.declared.link_inner.LinkInner.{LinkInner as TheLinkInner};
ghost use Rattle.amqp_link_endpoint.specs.contracts.link_inner.LinkInner.{the_row as inner_row};
ghost use Rattle.std.proofs.Common.{◌∙◌};
ghost use Rattle.amqp_link_endpoint.specs.Links.{with_properties as the_with_properties, without_session};
ghost use Rattle.amqp_link_endpoint.specs.Shown.{shown_from, shown_of};

use crate::endpoint::attached::sent_limit;
use crate::endpoint::detached::{detach_frame, result_of_remote_detach, result_of_reply};
use crate::endpoint::failing::{Action, AttachFailure, carry_out, error_to_send};
use crate::endpoint::table::{after_detach_reply, after_remote_detach, after_sent_detach};
use crate::endpoint::target::LinkTarget;
use crate::endpoint::{LinkDetach, LinkExt};
use crate::link_inner::LinkInner;
use crate::link_role::LinkRole;
use amqp_link_state::state::{LinkFlowState, LinkState};
use amqp_link_types::frame::LinkFrame;
use amqp_link_types::types::unsettled_map::UnsettledMap;
use amqp_link_types::types::{
    self, ApplyRemoteDetachError, DeliveryTag, Detach, DetachError, Error, Fields,
};
use indexmap::IndexMap;
use std::alloc::AllocError;

/// Lets the calls of this crate alone reach what an endpoint holds: no other code can make one.
#[derive(Clone, Copy)]
pub struct Access(());

/// An endpoint of either role, as the calls that both share reach what it holds.
pub trait EitherEnd {
    /// Its role.
    type Marker: LinkRole;

    /// The target of the link.
    type Target: LinkTarget;

    // What it holds as an endpoint of the other role does, and the endpoint with another such part.
    ghost inner: { Self → TheLinkInner Self.Marker Self.Target };

    ghost with_inner: { Self → TheLinkInner Self.Marker Self.Target → Self };

    // Its unsettled deliveries.
    ghost kept: { Self → Entries Self.Marker.Entry };

    // The endpoint without a delivery under way.
    ghost at_rest: { Self → Self };

    /// What it holds as an endpoint of the other role does.
    fn inner(&self, access: Access) -> &LinkInner<Self::Marker, Self::Target>
        ensures { result.now ≡ inner self.now };

    /// The same, to be written.
    fn inner_mut(&mut self, access: Access) -> &mut LinkInner<Self::Marker, Self::Target>
        ensures value { result.now ≡ inner self.old }
        ensures* lends { sem 𝓛 (Lends Self.row (inner_row Self.Marker.row Self.Target.row) self.entry result
            (λ inner. with_inner self.old inner)) };

    /// Its unsettled deliveries.
    fn kept(&self, access: Access) -> &UnsettledMap<<Self::Marker as LinkRole>::Entry>
        ensures { result.now ≡ kept self.now };

    /// Forgets what is under way of a delivery.
    fn rest(&mut self, access: Access)
        ensures { self.new ≡ at_rest self.old };

    // What it holds, and its unsettled deliveries, change by themselves.
    ghost apart: { (l : Self) (i : TheLinkInner Self.Marker Self.Target)
        → (inner (with_inner l i) ≡ i) × (kept (with_inner l i) ≡ kept l)
        × (inner (at_rest l) ≡ inner l) × (kept (at_rest l) ≡ kept l) };
}

impl<L: EitherEnd> LinkDetach for L {
    ghost use Rattle.amqp_link_types.specs.declared.types.errors.DetachError.TheVariants.{IllegalState};
    ghost use Rattle.amqp_link_endpoint.specs.Detaching.{reply_error};

    type DetachError = DetachError;

    type Unsettled = IndexMap<DeliveryTag, <L::Marker as LinkRole>::Entry>;

    type Entry = <L::Marker as LinkRole>::Entry;

    ghost unsettled_pairs = { λ map. map.entries };

    ghost shown = { λ l. shown_of L.Marker.role L.Target.sent_as (L.inner l) (L.kept l)
        (L.Marker.stated (L.kept l)) (L.Marker.ended (L.kept l)) };

    ghost moved = { λ l s h. L.with_inner l (record (L.inner l) { local_state = s; output_handle = h }) };

    ghost lost = { λ l. L.at_rest (L.with_inner l (without_session (L.inner l))) };

    ghost copies = { (t c : L.Target) → L.Target.is_clone t c → c ≡ t };

    ghost illegal_state = { IllegalState };

    ghost replied = { reply_error };

    ghost shown_moved = { λ l s h.
        let p = L.apart l (record (L.inner l) { local_state = s; output_handle = h }) in
        shown_from L.Marker.role L.Target.sent_as L.Marker.stated L.Marker.ended p.0 p.1 };

    ghost shown_lost = { λ l.
        let p = L.apart l (without_session (L.inner l)) in
        let q = L.apart (L.with_inner l (without_session (L.inner l))) (L.inner l) in
        shown_from L.Marker.role L.Target.sent_as L.Marker.stated L.Marker.ended (q.2 ∙ p.0) (q.3 ∙ p.1) };

    fn on_detach_reply(&mut self, detach: Detach) -> Result<(), DetachError> {
        let state = self.inner(Access(())).local_state;
        let Some(next) = after_detach_reply(state, detach.closed) else {
            drop(detach);
            return Err(DetachError::IllegalState);
        };
        self.inner_mut(Access(())).release_handle(next);
        result_of_reply(detach)
    }

    fn send_detach(
        &mut self,
        closed: bool,
        error: Option<Error>,
    ) -> Result<LinkFrame, DetachError> {
        let inner = self.inner(Access(()));
        let (state, handle) = (inner.local_state, inner.output_handle);
        let Some(next) = after_sent_detach(state, closed) else {
            drop(error);
            return Err(DetachError::IllegalState);
        };
        self.inner_mut(Access(())).release_handle(next);
        let Some(handle) = handle else {
            drop(error);
            return Err(DetachError::IllegalState);
        };
        Ok(detach_frame(handle, closed, error))
    }

    fn apply_remote_detach_outcome(
        &mut self,
        detach: Detach,
    ) -> Result<(), ApplyRemoteDetachError> {
        let state = self.inner(Access(())).local_state;
        let Some(next) = after_remote_detach(state, detach.closed) else {
            drop(detach);
            return Err(ApplyRemoteDetachError::IllegalState);
        };
        self.inner_mut(Access(())).release_handle(next);
        result_of_remote_detach(detach)
    }

    fn on_session_lost(&mut self) {
        self.inner_mut(Access(())).lose_session();
        self.rest(Access(()));
    }
}

impl<L: EitherEnd> LinkExt for L {
    type Marker = L::Marker;

    ghost with_properties = { λ l properties. L.with_inner l (the_with_properties properties (L.inner l)) };

    ghost with_frame_limit = { λ l limit. L.with_inner l (record (L.inner l) { max_frame_size = limit }) };

    ghost shown_with_properties = { λ l properties.
        let p = L.apart l (the_with_properties properties (L.inner l)) in
        shown_from L.Marker.role L.Target.sent_as L.Marker.stated L.Marker.ended p.0 p.1 };

    ghost shown_with_frame_limit = { λ l limit.
        let p = L.apart l (record (L.inner l) { max_frame_size = limit }) in
        shown_from L.Marker.role L.Target.sent_as L.Marker.stated L.Marker.ended p.0 p.1 };

    fn with_output_handle(mut self, handle: types::OutputHandle) -> L {
        self.inner_mut(Access(())).output_handle = Some(handle);
        self
    }

    fn set_max_frame_size(&mut self, max_frame_size: u32) {
        self.inner_mut(Access(())).max_frame_size = max_frame_size;
    }

    fn local_state(&self) -> &LinkState {
        &self.inner(Access(())).local_state
    }

    fn name(&self) -> &str {
        self.inner(Access(())).name.as_str()
    }

    fn output_handle(&self) -> Option<types::OutputHandle> {
        self.inner(Access(())).output_handle
    }

    fn output_handle_mut(&mut self) -> &mut Option<types::OutputHandle> {
        &mut self.inner_mut(Access(())).output_handle
    }

    fn input_handle(&self) -> Option<types::InputHandle> {
        self.inner(Access(())).input_handle
    }

    fn flow_state(&self) -> &LinkFlowState<L::Marker> {
        &self.inner(Access(())).flow_state
    }

    fn unsettled(&self) -> &IndexMap<DeliveryTag, <L::Marker as LinkRole>::Entry> {
        self.kept(Access(())).as_map()
    }

    fn unsettled_map(&self) -> &UnsettledMap<<L::Marker as LinkRole>::Entry> {
        self.kept(Access(()))
    }

    fn snd_settle_mode(&self) -> types::SenderSettleMode {
        self.inner(Access(())).snd_settle_mode
    }

    fn rcv_settle_mode(&self) -> &types::ReceiverSettleMode {
        &self.inner(Access(())).rcv_settle_mode
    }

    fn max_message_size(&self) -> Option<u64> {
        let limit = self.inner(Access(())).max_message_size;
        sent_limit(limit)
    }

    fn properties(&self) -> &Option<Fields> {
        self.inner(Access(())).flow_state.properties()
    }

    fn properties_mut(&mut self) -> &mut Option<Fields> {
        self.inner_mut(Access(())).flow_state.properties_mut()
    }

    fn complete_attach_fits(
        &self,
        max_frame_size: u32,
        count: types::SequenceNo,
    ) -> Result<bool, AllocError> {
        let inner = self.inner(Access(()));
        inner.complete_attach_fits(self.kept(Access(())), max_frame_size, count)
    }

    fn handle_attach_error<E: AttachFailure>(
        &mut self,
        error: E,
    ) -> Result<(E, Action), AllocError> {
        let remedy = error.remedy();
        let inner = self.inner(Access(()));
        let (state, handle) = (inner.local_state, inner.output_handle);
        let alloc = *self.kept(Access(())).as_map().allocator();
        let Ok(sent) = error_to_send(alloc, remedy, state, handle) else {
            drop(error);
            return Err(AllocError);
        };
        Ok(carry_out(self, error, remedy, sent))
    }
}
