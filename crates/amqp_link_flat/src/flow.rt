//! Flows as C has them (2.7.4).
ghost use Rattle.std.specs.Prelude.{◌≡◌};
ghost use Rattle.amqp_link_flat.specs.Flat;
ghost use Rattle.amqp_link_flat.specs.Flat.{link_flow, plain_flow};

use amqp_link_types::types::{Handle, LinkFlow};

/// A flow. A field that has a flag counts only if the flag is set. Properties do not cross.
#[repr(C)]
#[derive(Drop)]
pub struct Flow {
    /// The handle of the link at the endpoint that sends the flow.
    pub handle: u32,
    /// The sender's delivery-count.
    pub delivery_count: u32,
    /// The link-credit.
    pub link_credit: u32,
    /// How many deliveries wait at the sender.
    pub available: u32,
    /// Whether `delivery_count` is there.
    pub has_delivery_count: bool,
    /// Whether `link_credit` is there.
    pub has_link_credit: bool,
    /// Whether `available` is there.
    pub has_available: bool,
    /// Whether the sender is to use up its credit at once.
    pub drain: bool,
    /// Whether the peer is asked to reply with its own flow state.
    pub echo: bool,
}

/// A number, if it is there.
pub fn given(is_there: bool, number: u32) -> Option<u32>
    ensures { result ≡ Flat.given is_there number }
{
    if is_there { Some(number) } else { None }
}

impl Flow {
    /// The flow that C has passed.
    pub fn to_flow(&self) -> LinkFlow
        ensures { result ≡ link_flow self.now }
    {
        LinkFlow {
            handle: Handle(self.handle),
            delivery_count: given(self.has_delivery_count, self.delivery_count),
            link_credit: given(self.has_link_credit, self.link_credit),
            available: given(self.has_available, self.available),
            drain: self.drain,
            echo: self.echo,
            properties: None,
        }
    }

    /// The flow for C, without its properties.
    pub fn of(flow: &LinkFlow) -> Flow
        ensures { result ≡ plain_flow flow.now }
    {
        Flow {
            handle: flow.handle.0,
            delivery_count: flow.delivery_count.unwrap_or(0),
            link_credit: flow.link_credit.unwrap_or(0),
            available: flow.available.unwrap_or(0),
            has_delivery_count: flow.delivery_count.is_some(),
            has_link_credit: flow.link_credit.is_some(),
            has_available: flow.available.is_some(),
            drain: flow.drain,
            echo: flow.echo,
        }
    }
}
