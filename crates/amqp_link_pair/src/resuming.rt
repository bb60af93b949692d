//! The deliveries that the last attach has left to resume (2.6.13).
ghost use Rattle.std.specs.Prelude.{◌≡◌, ◌∷◌, ◌<◌, [], length, drop, IfOk, IfSome, IsSome, option_map};
ghost use Rattle.amqp_link_worlds.specs.Attachable.{list_in};
ghost use Rattle.amqp_link_worlds.specs.Resumptions.{entry_of};
ghost use Rattle.amqp_link_worlds.specs.Steps;
ghost use Rattle.amqp_link_pair.specs.Queues.{first_element, tag_and_delivery, resuming_of};

use amqp_link_core::resumption::ResumingDelivery;
use amqp_link_sender::sender_link::SenderAttachExchange;
use amqp_link_types::delivery::UnsettledMessage;
use amqp_link_types::types::{DeliveryTag, Payload};
use std::alloc::Global;
use std::collections::VecDeque;
use std::marker::Model;

/// The deliveries that are still to be resumed, in the order of the exchange, each with its tag.
///
/// A contract sees the list of the pairs, and for how many more there is room.
#[derive(Drop)]
pub(crate) struct Resuming {
    deliveries: VecDeque<(DeliveryTag, ResumingDelivery)>,
}

impl Model for Resuming {
    ghost use Rattle.amqp_link_pair.specs.Queues.{ListAndRoom};

    ghost Value = { ListAndRoom };

    ghost use Rattle.std.specs.Coded.{codes};
    ghost use Rattle.amqp_link_values.specs.contracts.fields.Fields as fields;

    ghost coded = { Prim.hlevel (codes, fields.the_row.coded) };

    ghost use Rattle.amqp_link_pair.specs.QueueViews.{list_view};

    ghost view = { list_view };
}

impl Resuming {
    // Nothing to resume.
    pub(crate) fn new(alloc: Global) -> Resuming
        ensures { result.list ≡ [] }
    {
        Resuming {
            deliveries: VecDeque::new(alloc),
        }
    }

    // The list that an exchange returns. Does not allocate.
    pub(crate) fn of(alloc: Global, exchange: SenderAttachExchange) -> Resuming
        ensures { result.list ≡ list_in exchange }
    {
        match exchange {
            SenderAttachExchange::Complete => Resuming::new(alloc),
            SenderAttachExchange::IncompleteUnsettled(list) | SenderAttachExchange::Resume(list) =>
                Resuming {
                    deliveries: VecDeque::from_vec(list.into_vec()),
                },
        }
    }

    pub(crate) fn len(&self) -> usize
        ensures { result ≡ length self.now.list }
    {
        self.deliveries.len()
    }

    pub(crate) fn is_empty(&self) -> bool
        ensures { result ≡ Steps.is_empty self.now.list }
    {
        self.deliveries.is_empty()
    }

    // The next delivery, with its tag.
    pub(crate) fn first(&self) -> Option<(&DeliveryTag, &ResumingDelivery)>
        ensures { option_map tag_and_delivery result ≡ first_element self.now.list }
    {
        let (tag, next) = self.deliveries.front()?;
        Some((tag, next))
    }

    // Removes the next delivery, so that there is room to put it back.
    pub(crate) fn take_first(&mut self) -> (DeliveryTag, ResumingDelivery)
        requires { IsSome (first_element self.old.list) }
        ensures taken { self.old.list ≡ result ∷ self.new.list }
        ensures room { 0 < self.new.room }
    {
        let Some(first) = self.deliveries.pop_front() else {
            unreachable!()
        };
        first
    }

    // Puts a delivery back that was the next.
    pub(crate) fn put_first(&mut self, tag: DeliveryTag, next: ResumingDelivery)
        requires { 0 < self.old.room }
        ensures { self.new.list ≡ (tag, next) ∷ self.old.list }
    {
        self.deliveries.push_front_reserved((tag, next));
    }
}

// Splits a delivery that is resumed or sent again into its entry and, if it is resumed, its rest.
pub(crate) fn taken_apart(next: ResumingDelivery) -> (UnsettledMessage, Option<Payload>)
    requires { IsSome (entry_of next) }
    ensures { resuming_of result.0 result.1 ≡ next }
{
    match next {
        ResumingDelivery::Resend(entry) => (entry, None),
        ResumingDelivery::Resume { entry, rest } => (entry, Some(rest)),
        _ => unreachable!(),
    }
}

// The delivery with this entry, which is resumed with this rest, or sent again without one.
pub(crate) fn put_together(entry: UnsettledMessage, rest: Option<Payload>) -> ResumingDelivery
    ensures { result ≡ resuming_of entry rest }
{
    match rest {
        None => ResumingDelivery::Resend(entry),
        Some(rest) => ResumingDelivery::Resume { entry, rest },
    }
}
