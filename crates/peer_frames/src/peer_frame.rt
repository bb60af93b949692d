//! The frames of a peer.
use amqp_link_types::types::{Attach, Detach, Disposition, LinkFlow, Payload, Transfer};

/// A frame of a peer.
#[derive(Clone, Debug, Drop)]
pub enum PeerFrame {
    /// It attaches.
    Attach(Attach),
    /// It states its delivery-count and credit.
    Flow(LinkFlow),
    /// A transfer with its payload.
    Transfer(Transfer, Payload),
    /// It states the state of deliveries.
    Disposition(Disposition),
    /// It detaches.
    Detach(Detach),
}
