//! The two roles of an endpoint, by what differs between them in calls that both have (2.6.3).
ghost use Rattle.std.specs.Prelude.{◌≡◌, ◌≤◌, List, [], IfOk};

use amqp_link_state::role::{IntoRole, ReceiverMarker, SenderMarker};
use amqp_link_state::state::{LinkFlowState, LinkFlowStateInner};
use amqp_link_types::delivery::{Outcomes, UnsettledMessage};
use amqp_link_types::types::unsettled_map::UnsettledMap;
use amqp_link_types::types::{DeliveryState, LinkStateError};
use std::alloc::{AllocError, Global};

/// One of the two roles of an endpoint.
pub trait LinkRole: IntoRole {
    ghost use Rattle.std.specs.Prelude.{◌+◌, ◌≤◌, ◌++◌, length, vec_len, vec_capacity};
    ghost use Rattle.amqp_link_types.specs.Deliveries.{Ended};
    ghost use Rattle.amqp_link_types.specs.Entries.{Entries};
    ghost use Rattle.amqp_link_endpoint.specs.Attaching.{States};

    /// What an endpoint of this role keeps of an unsettled delivery.
    type Entry: Drop;

    // What an attach states of the unsettled deliveries, and their outcomes if the link is reattached.
    ghost stated: { Entries Self.Entry → States };

    ghost ended: { Entries Self.Entry → List Ended };

    /// A flow state of this role. Does not allocate.
    fn flow_state_of(inner: LinkFlowStateInner) -> LinkFlowState<Self>
        ensures { result ≡ inner };

    /// What an attach states of these unsettled deliveries: a copy.
    fn stated(
        unsettled: &UnsettledMap<Self::Entry>,
    ) -> Result<UnsettledMap<Option<DeliveryState>>, AllocError>
        ensures { IfOk result (λ states. states ≡ stated unsettled.now) };

    /// Room for the outcomes of these deliveries if the link is reattached.
    fn room_for_outcomes(
        alloc: Global,
        unsettled: &UnsettledMap<Self::Entry>,
    ) -> Result<Outcomes, AllocError>
        ensures none_yet { IfOk result (λ outcomes. outcomes.items ≡ []) }
        ensures room { IfOk result (λ outcomes. length (ended unsettled.now) ≤ vec_capacity outcomes) };

    /// Ends these deliveries, in order, in a list that has room for their outcomes. Does not allocate.
    fn end_all(unsettled: UnsettledMap<Self::Entry>, outcomes: Outcomes) -> Outcomes
        requires { vec_len outcomes + length (ended unsettled) ≤ vec_capacity outcomes }
        ensures { result.items ≡ outcomes.items ++ ended unsettled };

    // Without deliveries an attach states none, and none ends.
    ghost without_deliveries: { (stated [] ≡ []) × (ended [] ≡ []) };
}

impl LinkRole for SenderMarker {
    ghost use Rattle.std.specs.Prelude.{◌+◌, ◌≤◌, ◌++◌, length, refl, vec_len, vec_capacity};
    ghost use Rattle.amqp_link_types.specs.Unsettled.{states_of};
    ghost use Rattle.amqp_link_endpoint.specs.Shown.{all_illegal};

    type Entry = UnsettledMessage;

    ghost stated = { states_of };

    ghost ended = { all_illegal };

    ghost without_deliveries = { (refl, refl) };

    fn flow_state_of(inner: LinkFlowStateInner) -> LinkFlowState<SenderMarker> {
        LinkFlowState::sender(inner)
    }

    fn stated(
        unsettled: &UnsettledMap<UnsettledMessage>,
    ) -> Result<UnsettledMap<Option<DeliveryState>>, AllocError> {
        unsettled.states()
    }

    fn room_for_outcomes(
        alloc: Global,
        unsettled: &UnsettledMap<UnsettledMessage>,
    ) -> Result<Outcomes, AllocError> {
        Vec::with_capacity(alloc, unsettled.len())
    }

    fn end_all(unsettled: UnsettledMap<UnsettledMessage>, mut outcomes: Outcomes) -> Outcomes
        requires { vec_len outcomes + length (all_illegal unsettled) ≤ vec_capacity outcomes }
        ensures { result.items ≡ outcomes.items ++ all_illegal unsettled }
    {
        for (tag, message) in unsettled.into_map() {
            drop(message);
            drop(outcomes.push((tag, Err(LinkStateError::IllegalState))));
        }
        outcomes
    }
}

impl LinkRole for ReceiverMarker {
    ghost use Rattle.std.specs.Prelude.{[], refl};

    type Entry = Option<DeliveryState>;

    ghost stated = { λ entries. entries };

    ghost ended = { λ entries. [] };

    ghost without_deliveries = { (refl, refl) };

    fn flow_state_of(inner: LinkFlowStateInner) -> LinkFlowState<ReceiverMarker> {
        LinkFlowState::receiver(inner)
    }

    fn stated(
        unsettled: &UnsettledMap<Option<DeliveryState>>,
    ) -> Result<UnsettledMap<Option<DeliveryState>>, AllocError> {
        unsettled.clone()
    }

    fn room_for_outcomes(
        alloc: Global,
        _: &UnsettledMap<Option<DeliveryState>>,
    ) -> Result<Outcomes, AllocError> {
        Ok(Vec::new(alloc))
    }

    fn end_all(unsettled: UnsettledMap<Option<DeliveryState>>, outcomes: Outcomes) -> Outcomes
        ensures { result ≡ outcomes }
    {
        drop(unsettled);
        outcomes
    }
}
