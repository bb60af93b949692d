//! The performatives of a link that are neither attach nor transfer: flow, disposition and detach
//! (2.7.4, 2.7.6 and 2.7.7).
ghost use Rattle.std.specs.Prelude.{◌≡◌, true, false, IfOk, OnErr};
ghost use Rattle.amqp_link_types.specs.Copies.{flow_carries_more, disposition_carries_more, detach_carries_more};

use crate::types::definitions::{DeliveryNumber, Error, Handle, Role, SequenceNo};
use crate::types::delivery_state::DeliveryState;
use amqp_link_values::copy::copy_of;
use amqp_link_values::fields::Fields;
use std::alloc::AllocError;

/// The part of a flow that concerns a link (2.7.4). The session adds its windows.
///
/// The default is a flow at handle 0 without any other field.
#[derive(Debug, Default, PartialEq, Eq, Drop)]
pub struct LinkFlow {
    /// The handle of the link at the endpoint that sends the flow.
    pub handle: Handle,
    /// The sender's delivery-count; a receiver that knows none leaves it out.
    pub delivery_count: Option<SequenceNo>,
    /// The link-credit, as the endpoint that sends the flow knows it.
    pub link_credit: Option<u32>,
    /// How many deliveries wait at the sender.
    pub available: Option<u32>,
    /// Whether the sender is to use up its credit at once.
    pub drain: bool,
    /// Whether the peer is asked to reply with its own flow state.
    pub echo: bool,
    /// Further properties of the link.
    pub properties: Option<Fields>,
}

/// The state of deliveries, by their delivery-ids (2.7.6).
#[derive(Debug, PartialEq, Eq, Drop)]
pub struct Disposition {
    /// The role of the endpoint that sends it.
    pub role: Role,
    /// The delivery-id of the first delivery.
    pub first: DeliveryNumber,
    /// The delivery-id of the last delivery; none if it is the first.
    pub last: Option<DeliveryNumber>,
    /// Whether the deliveries are settled at this endpoint.
    pub settled: bool,
    /// The state of the deliveries at this endpoint.
    pub state: Option<DeliveryState>,
    /// Whether the peer may delay its own disposition.
    pub batchable: bool,
}

/// The detach performative (2.7.7).
#[derive(Debug, PartialEq, Eq, Drop)]
pub struct Detach {
    /// The handle of the link at the endpoint that sends this.
    pub handle: Handle,
    /// Whether the link is closed for good.
    pub closed: bool,
    /// The error, if there is one.
    pub error: Option<Error>,
}

impl Clone for LinkFlow {
    ghost is_clone = { λ flow copy. copy ≡ flow };

    ghost is_infallible = { λ flow. flow_carries_more flow ≡ false };

    fn clone(&self) -> Result<LinkFlow, AllocError>
        ensures copy { IfOk result (λ copy. copy ≡ self.now) }
        ensures memory { OnErr result (flow_carries_more self.now ≡ true) }
    {
        Ok(LinkFlow {
            handle: self.handle,
            delivery_count: self.delivery_count,
            link_credit: self.link_credit,
            available: self.available,
            drain: self.drain,
            echo: self.echo,
            properties: copy_of(&self.properties)?,
        })
    }
}

impl Clone for Disposition {
    ghost is_clone = { λ disposition copy. copy ≡ disposition };

    ghost is_infallible = { λ disposition. disposition_carries_more disposition ≡ false };

    fn clone(&self) -> Result<Disposition, AllocError>
        ensures copy { IfOk result (λ copy. copy ≡ self.now) }
        ensures memory { OnErr result (disposition_carries_more self.now ≡ true) }
    {
        Ok(Disposition {
            role: self.role,
            first: self.first,
            last: self.last,
            settled: self.settled,
            state: copy_of(&self.state)?,
            batchable: self.batchable,
        })
    }
}

impl Clone for Detach {
    ghost is_clone = { λ detach copy. copy ≡ detach };

    ghost is_infallible = { λ detach. detach_carries_more detach ≡ false };

    fn clone(&self) -> Result<Detach, AllocError>
        ensures copy { IfOk result (λ copy. copy ≡ self.now) }
        ensures memory { OnErr result (detach_carries_more self.now ≡ true) }
    {
        Ok(Detach {
            handle: self.handle,
            closed: self.closed,
            error: copy_of(&self.error)?,
        })
    }
}
