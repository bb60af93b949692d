//! The receiver of a link (2.6).
ghost use Rattle.std.specs.Prelude.{◌≡◌, false};

mod attach;
mod completing;
mod deliveries;
mod disposing;
mod flow;

pub use amqp_link_endpoint::endpoint::attached::get_max_message_size;
use amqp_link_endpoint::endpoint::either::{Access, EitherEnd};
use amqp_link_endpoint::endpoint::target::LinkTarget;
use amqp_link_endpoint::link_inner::LinkInner;
use amqp_link_endpoint::link_parts::LinkParts;
use amqp_link_state::role::ReceiverMarker;
use amqp_link_types::types::DeliveryState;
use amqp_link_types::types::unsettled_map::UnsettledMap;
pub use attach::ReceiverAttachExchange;
use std::alloc::Global;
use std::marker::Model;

/// The receiver of a link.
///
/// How a link is built, attached, detached and looked at is the same at either role: `Link` says it. The calls of a
/// receiver by kind, and what each asks its caller to do next:
///
/// - **Attach**: `on_incoming_attach` returns `Complete` if the sender's attach states no unsettled delivery. Otherwise it
///   returns `Resume`: the sender resumes deliveries; or `IncompleteUnsettled`, if an attach did not state all of them:
///   the sender resumes those that were stated, and then the link is attached anew until an exchange is complete
///   (`Link`, **Detach**). Of a delivery that a complete map of the sender's lacks, drop what is held, and take the entry out
///   by `on_incoming_disposition(true, None, tag)`: no call does either.
/// - **Grant credit**: `send_flow` sets the link-credit and makes the flow to send. `on_incoming_flow` takes the
///   sender's, and returns the flow to send back, if there is one.
/// - **Take in**: `begins_delivery` says whether the next transfer begins a delivery in this attachment.
///   `on_incoming_transfer` takes the transfer from the session and returns the frame for the link's user. The
///   user keeps an `IncompleteTransfer`, to which `try_add` adds each further transfer, and reports the
///   position of what it holds by `on_incomplete_transfer`, after the last one too; then `on_complete_transfer`
///   returns the delivery and spends a credit. (If it is refused for lack of credit, the next attach states all that is
///   held.) `on_transfer_state` takes the state that a transfer carries, before the position is reported. Once a transfer
///   is settled, nothing is reported: `on_incoming_disposition(true, None, tag)` takes the entry out, which
///   `on_complete_transfer` leaves. What is held is kept as long as the delivery's entry. A first transfer without
///   `resume` takes the place of what is held of its tag (`start`, not `try_add`). One with `resume` of which nothing is
///   held begins nothing: if the map has its tag, the delivery was complete, and has this id now; otherwise it is ignored.
///   After a transfer that aborts,
///   `on_aborted`, and what is held is dropped; it takes no credit, so a sender that has counted the delivery has one
///   less than the link shows: `send_flow` with `echo` asks for its count, `move_delivery_count` sets it.
///   `on_incoming_disposition` takes the sender's disposition, and returns nothing to send.
/// - **Settle**: `dispose` and `dispose_all` make the dispositions to send.
///
/// A contract sees its state, name, modes, termini, limits, capabilities, handles, flow state, the list of
/// its unsettled deliveries, whether it verifies the peer's termini, and whether the last transfer that has
/// arrived since the peer's attach had `more` set.
#[derive(Drop)]
pub struct ReceiverLink<T: LinkTarget> {
    alloc: Global,
    inner: LinkInner<ReceiverMarker, T>,
    unsettled: UnsettledMap<Option<DeliveryState>>,
    more: bool,
}

impl<T: LinkTarget> Model for ReceiverLink<T> {
    ghost use Rattle.std.specs.Coded.{codes};
    ghost use Rattle.amqp_link_values.specs.contracts.fields.Fields as fields;
    ghost use Rattle.amqp_link_endpoint.specs.Links.{endpoint_of};
    ghost use Rattle.amqp_link_receiver.specs.Receivers.{Receiver};

    ghost Value = { Receiver T };

    ghost coded = { Prim.hlevel (codes, fields.the_row.coded) };

    ghost view = { λ link. endpoint_of link.inner link.unsettled link.more };
}

impl<T: LinkTarget> EitherEnd for ReceiverLink<T> {
    ghost use Rattle.std.specs.Prelude.{refl, false};
    ghost use Rattle.amqp_link_endpoint.specs.Links.{inner_of, with_inner};

    type Marker = ReceiverMarker;

    type Target = T;

    ghost inner = { inner_of };

    ghost with_inner = { with_inner };

    ghost kept = { λ link. link.unsettled };

    ghost at_rest = { λ link. record link { more = false } };

    ghost apart = { λ link i. (refl, refl, refl, refl) };

    fn inner(&self, _: Access) -> &LinkInner<ReceiverMarker, T> {
        &self.inner
    }

    fn inner_mut(&mut self, _: Access) -> &mut LinkInner<ReceiverMarker, T> {
        &mut self.inner
    }

    fn kept(&self, _: Access) -> &UnsettledMap<Option<DeliveryState>> {
        &self.unsettled
    }

    fn rest(&mut self, _: Access) {
        self.more = false;
    }
}

impl<T: LinkTarget> ReceiverLink<T> {
    ghost use Rattle.amqp_link_receiver.specs.Receivers.{receiver_of_parts};

    /// A link that is not attached, without handles and unsettled deliveries. Does not allocate.
    pub fn new(alloc: Global, parts: LinkParts<T>) -> ReceiverLink<T>
        ensures { result ≡ receiver_of_parts parts }
    {
        ReceiverLink {
            alloc,
            inner: LinkInner::new(parts),
            unsettled: UnsettledMap::new(alloc),
            more: false,
        }
    }
}
