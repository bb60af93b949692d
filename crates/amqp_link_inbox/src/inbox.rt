//! The inbox of a link's receiver (2.6.7, 2.6.12, 2.6.13).
ghost use Rattle.std.specs.Prelude.{◌≡◌, [], Err, IfOk, IsSomeAnd, MatchOption, drop, length, option_copied, if◌then◌else◌};
ghost use Rattle.amqp_link_types.specs.Entries.{entry_at};
ghost use Rattle.amqp_link_core.specs.Held.{held_bytes};
ghost use Rattle.amqp_link_core.specs.Merging.{first};
ghost use Rattle.amqp_link_receiver.specs.Completing.{IsDelivery};
ghost use Rattle.amqp_link_inbox.specs.Inboxes.{inbox_of_parts};
ghost use Rattle.amqp_link_inbox.specs.Storing.{IsStated, stage_at};
ghost use Rattle.amqp_link_inbox.specs.Taking.{AnswersTake, IsGivenBack, complete_of, has_taken, settled_refusal, take_refusal, with_taken};

mod arriving;
mod attach;
mod disposing;
mod flow;

use crate::deliveries::Deliveries;
use crate::error::TakeError;
use crate::kept::Kept;
use amqp_link_endpoint::endpoint::either::{Access, EitherEnd};
use amqp_link_endpoint::endpoint::target::LinkTarget;
use amqp_link_endpoint::link_inner::LinkInner;
use amqp_link_endpoint::link_parts::LinkParts;
use amqp_link_receiver::receiver_link::ReceiverLink;
use amqp_link_state::role::ReceiverMarker;
use amqp_link_types::delivery::Delivery;
use amqp_link_types::types::unsettled_map::UnsettledMap;
use amqp_link_types::types::{DeliveryState, DeliveryTag, FromBody};
pub use attach::Forgotten;
use std::alloc::Global;
use std::marker::Model;

/// A receiver's link endpoint with what has arrived of each delivery, whatever its peer sends.
///
/// Each frame of the link goes to the call that is named after it. What has begun stays over lost sessions until its sender
/// has sent the rest of it, aborts it, forgets it, or begins another delivery with its tag. A complete delivery is taken
/// once, and disposed of by its tag.
///
/// By its tag is kept what is unsettled, and what has begun. A complete delivery that its sender has settled waits in a
/// queue, since its sender may use the tag again at once. So the link states exactly the deliveries that are kept and not
/// settled, each up to where it has arrived or in the state that was stated since (2.6.13).
///
/// A delivery takes its credit when it begins, as its sender counts it (2.6.7): no resumption and no abort changes what the
/// sender may still begin. What the sender passes is taken all the same: `Arrived::without_credit` says so.
#[derive(Drop)]
pub struct Inbox<T: LinkTarget> {
    alloc: Global,
    link: ReceiverLink<T>,
    deliveries: Deliveries,
    under_way: Option<DeliveryTag>,
}

impl<T: LinkTarget> Model for Inbox<T> {
    ghost use Rattle.std.specs.Coded.{codes};
    ghost use Rattle.amqp_link_values.specs.contracts.fields.Fields as fields;
    ghost use Rattle.amqp_link_inbox.specs.Inboxes.{InboxState, inbox_with};
    ghost use Rattle.amqp_link_inbox.specs.Storing.{IsStated};

    ghost Value = { InboxState T };

    ghost coded = { Prim.hlevel (codes, fields.the_row.coded) };

    ghost view = { λ inbox. inbox_with inbox.deliveries inbox.link inbox.under_way };

    ghost invariant = { λ inbox. IsStated inbox.deliveries.entries inbox.link.unsettled };
}

// The calls that both roles share reach what the inbox's endpoint holds. None of them changes the unsettled deliveries, so
// what is kept stays.
impl<T: LinkTarget> EitherEnd for Inbox<T> {
    ghost use Rattle.std.specs.Prelude.{refl, false, None};
    ghost use Rattle.amqp_link_endpoint.specs.Links.{inner_of, with_inner};

    type Marker = ReceiverMarker;

    type Target = T;

    ghost inner = { λ inbox. inner_of inbox.link };

    ghost with_inner = { λ inbox i. record inbox { link = with_inner inbox.link i } };

    ghost kept = { λ inbox. inbox.link.unsettled };

    ghost at_rest = { λ inbox. record inbox { link = record inbox.link { more = false }; under_way = None } };

    ghost apart = { λ inbox i. (refl, refl, refl, refl) };

    fn inner(&self, access: Access) -> &LinkInner<ReceiverMarker, T> {
        self.link.inner(access)
    }

    fn inner_mut(&mut self, access: Access) -> &mut LinkInner<ReceiverMarker, T> {
        self.link.inner_mut(access)
    }

    fn kept(&self, access: Access) -> &UnsettledMap<Option<DeliveryState>> {
        self.link.kept(access)
    }

    fn rest(&mut self, access: Access) {
        self.link.rest(access);
        drop(self.under_way.take());
    }
}

impl<T: LinkTarget> Inbox<T> {
    /// The inbox of a link with these parts, which is not attached: nothing is kept. Does not allocate.
    pub fn new(alloc: Global, parts: LinkParts<T>) -> Inbox<T>
        ensures { result ≡ inbox_of_parts parts }
    {
        Inbox {
            alloc,
            link: ReceiverLink::new(alloc, parts),
            deliveries: Deliveries::new(alloc),
            under_way: None,
        }
    }

    /// The endpoint, to read what it shows.
    pub fn link(&self) -> &ReceiverLink<T>
        ensures link { result.now ≡ self.now.link }
        ensures stated { IsStated self.now.deliveries self.now.link.unsettled }
    {
        &self.link
    }

    /// What is kept of the delivery with this tag. Of a delivery that is settled and complete nothing is kept by its tag.
    pub fn get(&self, tag: &DeliveryTag) -> Option<&Kept>
        ensures { option_copied result ≡ entry_at self.now.deliveries tag.now }
    {
        self.deliveries.get(tag)
    }

    /// How many complete deliveries that their sender has settled wait to be taken.
    pub fn settled_len(&self) -> usize
        ensures { result ≡ length self.now.settled }
    {
        self.deliveries.settled_len()
    }

    /// Takes the complete delivery with this tag, with the message of all bytes that have arrived of it. It stays unsettled
    /// until it is disposed of. Takes no credit.
    ///
    /// Refused in this order, with nothing changed: `UnknownTag`, `NotComplete`, `AlreadyTaken`, `NotAttached` without output
    /// handle, `OutOfMemory`; and last `Undecoded`, if the body refuses the bytes: they are given back, and the delivery
    /// counts as taken.
    ///
    /// Its cost grows with what the body reads of the bytes.
    pub fn take<B: FromBody>(&mut self, tag: &DeliveryTag) -> Result<Delivery<B>, TakeError>
        ensures delivered { IfOk result (λ delivery.
            IsSomeAnd (complete_of (entry_at self.old.deliveries tag.now)) (λ held.
            IsDelivery self.old.link held.performative (B.decoded (held_bytes held)) delivery)) }
        ensures undecoded { (undecoded : _) → result ≡ Err (TakeError.Undecoded undecoded)
            → IsSomeAnd (complete_of (entry_at self.old.deliveries tag.now)) (λ held. IsGivenBack B.decoded held undecoded) }
        ensures refused { AnswersTake
            (take_refusal (stage_at self.old.deliveries tag.now) self.old.link.output_handle) result }
        ensures after { self.new ≡ record self.old {
          deliveries = if has_taken result then with_taken tag.now self.old.deliveries else self.old.deliveries;
        } }
    {
        self.deliveries.take(&self.link, self.alloc, tag)
    }

    /// Takes the first of the complete deliveries that their sender has settled; none, if there is none.
    ///
    /// Refused as `take` is: `NotAttached`, `OutOfMemory`, with nothing changed; and `Undecoded`, with the delivery taken.
    pub fn take_settled<B: FromBody>(&mut self) -> Result<Option<Delivery<B>>, TakeError>
        ensures delivered { IfOk result (λ taken. MatchOption taken (self.old.settled ≡ []) (λ delivery.
            IsSomeAnd (first self.old.settled) (λ held.
            IsDelivery self.old.link held.performative (B.decoded (held_bytes held)) delivery))) }
        ensures undecoded { (undecoded : _) → result ≡ Err (TakeError.Undecoded undecoded)
            → IsSomeAnd (first self.old.settled) (λ held. IsGivenBack B.decoded held undecoded) }
        ensures refused { AnswersTake (settled_refusal self.old.settled self.old.link.output_handle) result }
        ensures after { self.new ≡ record self.old {
          settled = if has_taken result then drop 1 self.old.settled else self.old.settled;
        } }
    {
        self.deliveries.take_settled(&self.link, self.alloc)
    }
}
